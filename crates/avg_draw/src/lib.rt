//! Where the vector generator's beam goes, and how long it takes.
#![tactic(auto)]

mod beam;

pub use beam::{delta, draw_clocks, move_beam};
