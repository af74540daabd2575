//! Does the rows of the suite in `data/`, with the program's call over files and sinks in memory:
//! what each command of a row gives is compared with what the row wants, and each of its I/O calls
//! is made to fail in turn. `data/FORMAT.txt` says how a row is written.
#![tactic(auto)]

mod comparison;
mod content;
mod emulator;
mod failures;
mod folder;
mod lines;
mod report;
mod rows;
mod stopped;
mod suite;
mod sum;
mod trial;
mod words;

use emulator::Emulator;
use gravitar_commands::{Words, gravitar};
use outside_io::{FileShelf, Loaded, MemoryShelf, MemorySink, Shelf, Sink, TextSink};
use std::alloc::Global;
use std::env;
use std::process::ExitCode;
use stopped::Stopped;
use suite::run_suite;

/// The most bytes of a file of the suite.
const FILE_LIMIT: usize = 1_048_576;

/// The program's call.
struct Gravitar;

impl Emulator for Gravitar {
    fn command(
        &self,
        alloc: Global,
        words: &[String],
        shelf: &mut MemoryShelf,
        out: &mut MemorySink,
        notes: &mut MemorySink,
    ) -> Result<u8, Stopped> {
        let mut line = Words::new(alloc);
        for word in words {
            line.push(word)?;
        }
        Ok(gravitar(alloc, &line, shelf, out, notes))
    }
}

/// Appends a file of the suite.
fn push_file<S: Shelf>(
    alloc: Global,
    name: &str,
    shelf: &mut S,
    text: &mut Vec<u8>,
) -> Result<(), Stopped> {
    let mut bytes = Vec::new(alloc);
    match shelf.load(name, FILE_LIMIT, &mut bytes) {
        Ok(Loaded::Found) if bytes.len() <= FILE_LIMIT => {}
        _ => return Err(Stopped::File),
    }
    text.extend_from_slice(&bytes)?;
    Ok(())
}

/// The text of all files that the command line names, one after another.
fn read_suite<R: env::Env + Alloc, S: Shelf>(rt: &R, shelf: &mut S) -> Result<Vec<u8>, Stopped>
where
    R: Alloc<A = Global>,
{
    let mut text = Vec::new(rt.alloc());
    let args = env::args(rt).map_err(|_| Stopped::NoMemory)?;
    for name in args.skip(1) {
        push_file(rt.alloc(), &name, shelf, &mut text)?;
    }
    Ok(text)
}

/// Reads the suite, and does all its rows.
fn perform<R: env::Env + Alloc<A = Global>, S: Shelf, O: Sink>(
    rt: &R,
    shelf: &mut S,
    out: &mut O,
) -> Result<u32, Stopped> {
    let bytes = read_suite(rt, shelf)?;
    let text = str::from_utf8(&bytes).map_err(|_| Stopped::Form)?;
    run_suite(rt.alloc(), &Gravitar, text, out)
}

fn main(rt: HostRuntime) -> ExitCode {
    let mut shelf = FileShelf::new(&rt);
    let mut out = TextSink::new(rt.stdout());
    let mut notes = TextSink::new(rt.stderr());
    match perform(&rt, &mut shelf, &mut out) {
        Ok(0) => ExitCode::from(0),
        Ok(_) => ExitCode::from(1),
        Err(stopped) => {
            let _ = notes.write(stopped.text());
            ExitCode::from(1)
        }
    }
}
