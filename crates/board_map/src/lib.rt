//! The board's address map.
#![tactic(auto)]

pub mod address;
pub mod laws;
pub mod map;

pub use address::{IN0, VECTOR_RAM_START, WATCHDOG_START, region, row};
pub use laws::region_edges;
pub use map::{Reads, Region, Row, Writes};
