//! Words on bits and on tables that several chips and files share, and the test of a bit.
#![tactic(auto)]

mod bit;

pub use bit::is_set;
