//! The 6502: its instructions, its interrupt and its reset, as accesses of a bus, one in each clock
//! (MCS6500 Hardware Manual, appendix A).
#![tactic(auto)]

mod addressing;
mod bus;
mod fetched;
mod laws;
mod middle;
mod operations;
mod parts;
mod patterns;
mod pause;
mod processor;
mod registers;
mod replay;
mod seen;
mod sequence;

pub use bus::Bus;
pub use fetched::Fetched;
pub use laws::sequences_keep_range;
pub use middle::is_middle;
pub use parts::in_two_parts;
pub use processor::Cpu;
pub use replay::Next;
pub use sequence::clock_range;
