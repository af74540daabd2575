use crate::files::{FILE_LIMIT, compare, copy};
use crate::stopped::Stopped;
use gravitar_commands::{Words, gravitar};
use outside_io::{MemorySink, Shelf, Sink};
use std::alloc::Global;

/// Does a command of the program, which has to end with status 0.
fn perform<S: Shelf, O: Sink, N: Sink>(
    alloc: Global,
    args: &[&str],
    shelf: &mut S,
    out: &mut O,
    notes: &mut N,
) -> Result<(), Stopped> {
    let mut words = Words::new(alloc);
    for arg in args {
        words.push(arg).map_err(|_| Stopped::NoMemory)?;
    }
    match gravitar(alloc, &words, shelf, out, notes) {
        0 => Ok(()),
        _ => Err(Stopped::Status),
    }
}

/// Does a command of the program, and stores its text under a name.
fn perform_into<S: Shelf, N: Sink>(
    alloc: Global,
    args: &[&str],
    name: &str,
    shelf: &mut S,
    notes: &mut N,
) -> Result<(), Stopped> {
    let mut text = MemorySink::new(alloc, FILE_LIMIT, &[]).map_err(|_| Stopped::NoMemory)?;
    perform(alloc, args, shelf, &mut text, notes)?;
    shelf.store(name, text.bytes()).map_err(|_| Stopped::File)
}

/// Does a line: a comment or `set -eu`, as which a session is done anyway, a command of the program
/// with or without a file for its text, `cp` or `cmp`. Words are parted by blanks.
fn perform_line<S: Shelf, O: Sink, N: Sink>(
    alloc: Global,
    line: &str,
    shelf: &mut S,
    out: &mut O,
    notes: &mut N,
) -> Result<(), Stopped> {
    let words: Vec<&str> = line
        .split_whitespace()
        .collect(alloc)
        .map_err(|_| Stopped::NoMemory)?;
    match words.as_slice() {
        [] | ["#", ..] | ["set", "-eu"] => Ok(()),
        ["gravitar", args @ .., ">", name] => perform_into(alloc, args, name, shelf, notes),
        ["gravitar", args @ ..] => perform(alloc, args, shelf, out, notes),
        ["cp", from, to] => copy(alloc, from, to, shelf),
        ["cmp", first, second] => compare(alloc, first, second, shelf),
        _ => Err(Stopped::Form),
    }
}

/// Does the lines of a session, up to the first that fails.
pub fn perform_session<S: Shelf, O: Sink, N: Sink>(
    alloc: Global,
    text: &str,
    shelf: &mut S,
    out: &mut O,
    notes: &mut N,
) -> Result<(), Stopped> {
    for line in text.lines() {
        perform_line(alloc, line, shelf, out, notes)?;
    }
    Ok(())
}
