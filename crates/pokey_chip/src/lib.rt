//! A POKEY (C012294 data sheet): its clock, its registers, and two devices of the same behaviour.
//!
//! `control` has the bits of its control registers and `registers` its registers by their numbers.
//! Of a clock's five steps `tick` does the first three and the last, and `channel` knows the
//! periods.
#![tactic(auto)]

mod bits;
mod channel;
mod clock_source;
mod control;
mod counts;
mod device;
pub mod fast;
pub mod laws;
mod noise;
pub mod plain;
mod quiet;
mod registers;
mod tick;
mod tones;
pub mod unit;
mod voice;

pub use fast::FastPokey;
pub use laws::{control_bits, register_numbers};
pub use plain::PlainPokey;
pub use registers::RANDOM;
pub use unit::{SoundUnit, one_record_a_clock};
