//! A large run as seven numbers: the records are counted window by window, and no log is kept.
#![tactic(auto)]

mod counter;
mod soak;
pub mod summary;
mod text;

pub use soak::run_soak;
pub use summary::Summary;
