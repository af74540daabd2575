//! The words of the vector generator: what each does, and how it is spelled.
#![tactic(auto)]

mod bits;
mod decoding;
mod word;

pub use decoding::{second, spell, word_kind};
pub use word::VgWord;
