//! The clocks of the POKEY: a prescaler's pulses, and the countdown of a channel, over any number
//! of them in one step.
#![tactic(auto)]

mod countdown;
mod prescaler;

pub use countdown::skip;
pub use prescaler::{clocks_to_underflow, prescaler_after, pulses_in};
