//! The script of a debugger: its text read as commands.
#![tactic(auto)]

pub mod command;
pub mod fault;
pub mod laws;
pub mod script;
pub mod stops;

pub use command::{Command, Span};
pub use fault::ScriptFault;
pub use laws::script_limits;
pub use script::{SCRIPT_LIMIT, read_script};
pub use stops::{Breakpoints, STOPS};
