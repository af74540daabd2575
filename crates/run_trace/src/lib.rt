//! Runs observed turn by turn: the frames of what was drawn, and the routines that took the clocks.
#![tactic(auto)]

mod framing;
mod laws;
mod profiling;

pub use framing::run_framed;
pub use laws::{all_clocks_are_counted, all_strokes_are_counted, frames_have_their_strokes};
pub use profiling::run_profiled;
