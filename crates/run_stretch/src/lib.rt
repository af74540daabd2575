//! A stretch of a run, from the bytes of a saved board to those of another, and an image from two
//! sources: the board as a function of bytes, for programs in other languages too, which use
//! `calls`.
#![tactic(auto)]

mod assembling;
pub mod calls;
mod ended;
mod fault;
mod fault_text;
mod growing;
mod kept_text;
mod laws;
mod parts;
mod stretch;
mod watching;

pub use assembling::{AssemblyFault, assemble};
pub use ended::Stretch;
pub use fault::StretchFault;
pub use laws::stretches_are_the_run;
pub use parts::Start;
pub use stretch::{advance, power_on, records, sample};
