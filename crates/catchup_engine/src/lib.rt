//! The engine: the board, moved by sequences of the processor.
#![tactic(auto)]

mod bus;
pub mod devices;
pub mod engine;
mod laws;
pub mod machine;
mod note;
mod noted;
mod quiet;
mod run;
pub mod stop_conditions;
pub mod trace;
mod tracer;
mod turn;

pub use devices::Devices;
pub use engine::Engine;
pub use laws::engine_numbers;
pub use lockstep_board::Stop;
pub use machine::Machine;
pub use note::{Reached, TurnNote};
pub use stop_conditions::{StopConditions, WatchedByte};
pub use trace::{Access, Trace};
pub use tracer::Tracer;
