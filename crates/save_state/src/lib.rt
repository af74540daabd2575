//! The bytes of a saved board.
#![tactic(auto)]

mod board;
mod bytes;
mod check;
mod divider;
mod earom;
mod fault;
mod pokey;
mod processor;
mod reading;
mod state_laws;
mod vg;

pub use board::write;
pub use fault::StateFault;
pub use reading::read;
pub use state_laws::{one_reading, state_numbers};

/// The number of bytes of a saved board.
pub const STATE_LEN: usize = 4356;
