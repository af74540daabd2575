//! A command line of `gravitar` as one call of plain bytes: a request has its words and its files,
//! and an answer its status, its text, its note and its stores.
#![tactic(auto)]

mod answering;
mod counted_text;
mod laws;
mod performing;
mod reading;
mod request_shelf;
mod written;

pub use answering::command;
pub use counted_text::CountedText;
pub use laws::requests_read_as_written;
pub use performing::perform;
pub use reading::{RequestFault, read_request};
pub use request_shelf::RequestShelf;
