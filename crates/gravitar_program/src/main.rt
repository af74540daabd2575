//! The program `gravitar`: a command line's words, done on real files and streams.
#![tactic(auto)]

use gravitar_commands::{NO_MEMORY, USAGE};
pub use gravitar_commands::{OutsideFault, Words, gravitar, run_slices};
use outside_io::{FileShelf, OutputShelf, Sink, TextSink};
use std::alloc::Global;
use std::process::ExitCode;
use std::{env, io, process};

/// Why a command line can't be taken.
#[derive(Clone, Copy, Debug, PartialEq, Eq)]
enum Unread {
    /// A word isn't UTF-8.
    NotText,
    /// No memory for a word.
    NoMemory,
}

/// The words of the process, without the program's name.
fn process_words<R: env::Env + Alloc>(rt: &R, alloc: Global) -> Result<Words, Unread> {
    let mut words = Words::new(alloc);
    let args = match env::args(rt) {
        Ok(args) => args,
        Err(error) => {
            return Err(match error.kind() {
                io::ErrorKind::OutOfMemory => Unread::NoMemory,
                _ => Unread::NotText,
            });
        }
    };
    for word in args.skip(1) {
        if words.push(&word).is_err() {
            return Err(Unread::NoMemory);
        }
    }
    Ok(words)
}

fn main(rt: HostRuntime) -> ExitCode {
    let mut notes = TextSink::new(rt.stderr());
    match process_words(&rt, rt.alloc()) {
        Ok(words) => {
            let files = FileShelf::with_process(&rt, process::id(rt.process()));
            let mut shelf = OutputShelf::new(files, rt.stdout());
            let mut out = TextSink::new(rt.stdout());
            ExitCode::from(gravitar(rt.alloc(), &words, &mut shelf, &mut out, &mut notes))
        }
        Err(Unread::NotText) => {
            let _ = notes.write(USAGE);
            ExitCode::from(2)
        }
        Err(Unread::NoMemory) => {
            let _ = notes.write(NO_MEMORY);
            ExitCode::from(7)
        }
    }
}
