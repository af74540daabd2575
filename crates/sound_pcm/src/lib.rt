//! Samples of the sound, to listen to: the levels of both POKEYs, summed over groups of clocks.
//! They are this project's own: unsigned numbers of 32 bits, the lowest byte first.
#![tactic(auto)]

mod group;
mod laws;
mod mixer;

pub use laws::{in_parts, mixer_numbers, samples_fit, whole_groups};
pub use mixer::{MAX_LEVEL, MAX_PER, Mixer};
