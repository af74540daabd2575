//! The command line: its words read as a command.
#![tactic(auto)]

pub mod command;
pub mod laws;
pub mod number;
pub mod option;
pub mod settings;
pub mod verb;
mod word;

pub use command::{AsmWords, Command, DebugWords, PcmWords, RunWords, SeekWords, read_command};
pub use laws::{command_limits, command_words};
pub use number::{CUTS, Cuts, PER_LIMIT, read_clocks, read_cuts, read_number, read_per};
pub use option::Opt;
pub use settings::Settings;
pub use verb::{VERBS, Verb};
