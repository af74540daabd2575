//! The assembler of the vector generator's sources.
#![tactic(auto)]

mod assembly;
mod avg;
pub mod laws;
mod layout;
mod mnemonic;
mod operands;

pub use asm_core::{Listing, ListingLine};
pub use assembly::{VECTOR_ROM, assemble};
pub use avg::Avg;
pub use mnemonic::Mnemonic;
