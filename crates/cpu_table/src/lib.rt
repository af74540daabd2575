//! The opcode table of the 6502: its operations, its addressing modes, and the rows that tie both
//! to opcodes.
#![tactic(auto)]

mod decoding;
mod instruction;
mod table;

pub use decoding::{decode, length};
pub use instruction::{Mode, Op};
pub use table::{encode, entry};
