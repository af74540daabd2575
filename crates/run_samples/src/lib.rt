//! The samples of a run: the levels of both POKEYs, summed over groups of clocks.
#![tactic(auto)]

mod laws;
mod samples;

pub use laws::run_samples_fit;
pub use samples::{Sampler, run_sampled};
