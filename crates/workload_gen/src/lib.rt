//! The workload of a long run, from one number: an image and a tape that keep the processor, the
//! vector generator and both POKEYs busy. All of it is this project's own choice.
#![tactic(auto)]

mod draws;
pub mod laws;
mod roms;
mod tape;
mod words;
mod workload;

pub use laws::{bytes_by_their_addresses, sizes_of_a_workload};
pub use workload::make;
