//! The input tape and the ports that it sets.
#![tactic(auto)]

pub mod entry;
pub mod fault;
pub mod laws;
mod line;
pub mod tape;

pub use entry::{Port, TapeEntry};
pub use fault::{LineCause, TapeFault};
pub use laws::{entries_of_a_clock, tape_by_its_lines, tape_limits};
pub use tape::{TAPE_LIMIT, Tape};
