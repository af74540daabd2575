//! A line of text: words with a blank between each two, put together in the bytes in which it is
//! written out.
#![tactic(auto)]

mod chain;
pub mod line;

pub use line::{LONGEST, Line, PIECE, longest_line};
