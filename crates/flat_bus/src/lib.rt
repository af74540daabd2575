//! Two small buses over 65,536 bytes: one for tests, which notes each access with its clock, and
//! one without a log, to measure a processor on.
#![tactic(auto)]

mod bus;
mod logged;
mod unlogged;

pub use bus::FlatBus;
pub use logged::{Direction, Logged};
pub use unlogged::UnloggedBus;
