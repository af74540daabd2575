//! The board's deadlines.
#![tactic(auto)]

pub mod deadlines;

pub use deadlines::Deadlines;
