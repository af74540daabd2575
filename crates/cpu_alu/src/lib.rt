//! The arithmetic of the 6502: the result and the status byte of each operation that computes.
//!
//! A status byte holds N, V, D, I, Z and C in its bits 7, 6, 3, 2, 1 and 0. Bits 4 and 5 hold no
//! flag: they are not looked at, and they are clear in each status byte that is given back.
#![tactic(auto)]

mod arithmetic;
mod decimal;
mod flags;
mod logic;
mod shifts;

pub use arithmetic::{adc, compare, sbc};
pub use flags::Flags;
pub use logic::{bit, nz};
pub use shifts::{asl, lsr, rol, ror};
