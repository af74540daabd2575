//! The board as calls that take and give plain bytes and numbers, and keep no pointer. `gravitar_c`
//! exports them for C.

mod answer;
mod report;
mod sources;
mod stretches;

pub use answer::report_number;
pub use report::{GravitarReport, Status};
pub use sources::{assemble, power_on, version};
pub use stretches::{advance, pcm, records};
