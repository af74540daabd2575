//! The vector generator: one that moves clock by clock, and one that moves by whole words, draws
//! and halts.
#![tactic(auto)]

mod control;
mod device;
mod draw;
mod execute;
mod fast;
mod fetch;
mod leap;
mod plain;
mod tick;
mod unit;

pub use fast::FastVg;
pub use plain::PlainVg;
pub use unit::{VectorUnit, one_record_a_clock};
