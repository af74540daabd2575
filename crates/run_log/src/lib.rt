//! A run in slices: its log, and the boards and cells that it stores.
#![tactic(auto)]

mod board_bytes;
mod laws;
mod log_writer;
mod outside_fault;
mod record_writer;
mod slices;

pub use laws::{cuts_leave_the_run, log_is_one_list};
pub use log_writer::LogWriter;
pub use outside_fault::OutsideFault;
pub use record_writer::RecordWriter;
pub use slices::run_slices;
