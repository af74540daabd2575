//! Plain text: its lines, the words of a line, and numbers written in digits.
#![tactic(auto)]

pub mod laws;
pub mod line;
pub mod number;

pub use laws::number_limits;
pub use line::{read_line, read_word};
pub use number::{DIGITS, read_digits, read_value};
