//! What the program `gravitar` does for the words of a command line, over any shelf of files and
//! any sinks for its text and its notes.
#![tactic(auto)]

mod answer;
mod assembled;
mod assembling;
mod cause;
mod cause_text;
mod debugging;
mod failure;
mod laws;
mod load;
mod parts;
mod program;
mod reporting;
mod seeking;
mod soaking;
mod steady;
mod words;

pub use answer::NO_MEMORY;
pub use laws::plain_run;
pub use program::{USAGE, gravitar};
pub use reporting::sample_numbers;
pub use run_log::{OutsideFault, run_slices};
pub use seeking::{SEEK_FRAMES, SEEK_PAGES, seek_numbers};
pub use steady::steady_status;
pub use words::Words;
