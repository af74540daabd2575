//! The EAROM.
#![tactic(auto)]

pub mod cells;
pub mod unit;

pub use cells::Earom;
pub use unit::CellUnit;
