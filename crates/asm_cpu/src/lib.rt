//! The assembler of processor sources.
#![tactic(auto)]

pub mod laws;
mod mnemonics;
mod mode;
mod operand;
mod source;
mod statement;

pub use asm_core::{Listing, ListingLine};
pub use mnemonics::mnemonic;
pub use source::{PROGRAM_ROM, assemble};
