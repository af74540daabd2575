//! Does the session of `data/session.sh` as a shell does, with the program's call in place of the
//! program: so the gate runs the examples, and compares what they give.
#![tactic(auto)]

mod files;
mod session;
mod stopped;

use crate::files::read_file;
use crate::session::perform_session;
use crate::stopped::Stopped;
use outside_io::{FileShelf, Shelf, Sink, TextSink};
use std::alloc::Global;
use std::process::ExitCode;

/// The file of the session.
const SESSION: &str = "session.sh";

/// Does the session.
fn run_session<S: Shelf, O: Sink, N: Sink>(
    alloc: Global,
    shelf: &mut S,
    out: &mut O,
    notes: &mut N,
) -> Result<(), Stopped> {
    let bytes = read_file(alloc, SESSION, shelf)?;
    let text = std::str::from_utf8(&bytes).map_err(|_| Stopped::Form)?;
    perform_session(alloc, text, shelf, out, notes)
}

fn main(rt: HostRuntime) -> ExitCode {
    let mut shelf = FileShelf::new(&rt);
    let mut out = TextSink::new(rt.stdout());
    let mut notes = TextSink::new(rt.stderr());
    match run_session(rt.alloc(), &mut shelf, &mut out, &mut notes) {
        Ok(()) => ExitCode::from(0),
        Err(stopped) => {
            let _ = notes.write(stopped.text());
            ExitCode::from(1)
        }
    }
}
