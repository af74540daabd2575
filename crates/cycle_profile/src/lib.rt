//! A profile: the clocks, the entries and the device accesses of each routine of the program.
#![tactic(auto)]

mod counts;
mod laws;
mod profile;
mod turn;
mod write;

pub use counts::Counts;
pub use laws::{clocks_add_up, profile_numbers};
pub use profile::{ADDRESSES, LONGEST_LIST, Profile};
pub use turn::stays;
