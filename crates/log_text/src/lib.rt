//! The text of the log: a line for each record of the board, by clock, and the last lines.
#![tactic(auto)]

mod kept_text;
mod last;
mod log_line;
mod merged;
mod record_bytes;
mod record_line;

pub use last::{write_cost, write_end, write_jam, write_last};
pub use merged::{logs_join, one_log, write_merged, write_records};
pub use record_bytes::{RECORD_LEN, record_size};
