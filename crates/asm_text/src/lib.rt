//! The tokens of an assembler's source, and what both assemblers answer.
#![tactic(auto)]

pub mod fault;
pub mod laws;
mod line;
pub mod numeral;
mod piece;
pub mod scan;
pub mod token;

pub use fault::{AsmCause, AsmFault};
pub use laws::source_limits;
pub use line::{code_of, split_line};
pub use numeral::number;
pub use piece::{is_register, read_kind, split_piece, takes_word};
pub use scan::{TEXT_LIMIT, push_line, tokens};
pub use token::{Kind, Token};
