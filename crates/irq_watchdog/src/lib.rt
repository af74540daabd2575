//! The interrupt divider and the watchdog.
#![tactic(auto)]

pub mod interrupt_divider;
pub mod unit;

pub use interrupt_divider::Divider;
pub use unit::DividerUnit;
