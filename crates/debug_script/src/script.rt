ghost use Rattle.std.specs.Prelude.{◌≡◌, true, IfOk, IfSome, ◌≤◌};
ghost use Rattle.debug_script.specs.Script.{ReadsScript, next_command};
ghost use Rattle.debug_script.specs.Breakpoints.{Fit, are_few, no_stops, stops_after};
ghost use Rattle.plain_text.specs.Lines.{words_of};
ghost use Rattle.debug_script.specs.Commands.{address_of, argument_command, command_of, count_up_to, is_watchable, is_word_address, plain_command, span_command, span_of, where_it};

use crate::command::{Command, Span};
use crate::fault::ScriptFault;
use crate::stops::Breakpoints;
use board_map::{Reads, row};
use command_line::read_number;
use plain_text::{read_line, read_value, read_word};
use std::alloc::Global;

/// The most turns of `step`.
pub const MOST_TURNS: u64 = 1_000_000;

/// The most bytes of `mem`.
pub const MOST_BYTES: u64 = 256;

/// The most instructions of `dis` and of `vdis`.
pub const MOST_INSTRUCTIONS: u64 = 64;

/// An address of four hexadecimal digits.
fn read_address(word: &[u8]) -> Option<u16>
    ensures { result ≡ address_of word.now }
{
    if word.len() != 4 {
        return None;
    }
    let high = read_value(&word[..2])?;
    let low = read_value(&word[2..])?;
    Some(u16::from_be_bytes([high, low]))
}

/// A number from 1 to `most`.
fn read_count(most: u64, word: &[u8]) -> Option<u64>
    ensures { result ≡ count_up_to most word.now }
{
    let count = read_number(word)?;
    if count == 0 || count > most {
        return None;
    }
    Some(count)
}

/// So many items from an address on.
fn read_span(most: u64, from: &[u8], count: &[u8]) -> Option<Span>
    requires { most ≤ 65535 }
    ensures { result ≡ span_of most from.now count.now }
{
    let from = read_address(from)?;
    let count = read_count(most, count)? as u16;
    Some(Span { from, count })
}

/// Whether a byte may be watched.
fn is_watchable(address: u16) -> bool
    ensures { result ≡ is_watchable address }
{
    matches!(row(address).reads, Reads::Ram | Reads::VectorRam)
}

/// The address of a byte that may be watched.
fn read_watched(word: &[u8]) -> Option<u16>
    ensures { result ≡ where_it is_watchable (address_of word.now) }
{
    let address = read_address(word)?;
    if is_watchable(address) {
        Some(address)
    } else {
        None
    }
}

/// Whether a word of the vector generator begins there.
fn is_word_address(address: u16) -> bool
    ensures { result ≡ is_word_address address }
{
    matches!(row(address).reads, Reads::VectorRam | Reads::VectorRom) && address % 2 == 0
}

/// So many instructions of the vector generator, from an address on at which a word begins.
fn read_vg_span(from: &[u8], count: &[u8]) -> Option<Span>
    ensures { result ≡ where_it (λ span. is_word_address span.from) (span_of MOST_INSTRUCTIONS from.now count.now) }
{
    let span = read_span(MOST_INSTRUCTIONS, from, count)?;
    if is_word_address(span.from) {
        Some(span)
    } else {
        None
    }
}

/// A command of one word.
fn read_plain(word: &[u8]) -> Option<Command>
    ensures { result ≡ plain_command word.now }
{
    if word == b"stopvg".as_slice() {
        Some(Command::StopVg)
    } else if word == b"clear".as_slice() {
        Some(Command::Clear)
    } else if word == b"go".as_slice() {
        Some(Command::Go)
    } else if word == b"regs".as_slice() {
        Some(Command::Regs)
    } else if word == b"dev".as_slice() {
        Some(Command::Dev)
    } else {
        None
    }
}

/// A command with one argument.
fn read_argument(verb: &[u8], argument: &[u8]) -> Option<Command>
    ensures { result ≡ argument_command verb.now argument.now }
{
    if verb == b"break".as_slice() {
        Some(Command::Break(read_address(argument)?))
    } else if verb == b"watch".as_slice() {
        Some(Command::Watch(read_watched(argument)?))
    } else if verb == b"step".as_slice() {
        Some(Command::Step(read_count(MOST_TURNS, argument)?))
    } else if verb == b"until".as_slice() {
        Some(Command::Until(read_number(argument)?))
    } else {
        None
    }
}

/// A command with an address and a count.
fn read_spanned(verb: &[u8], from: &[u8], count: &[u8]) -> Option<Command>
    ensures { result ≡ span_command verb.now from.now count.now }
{
    if verb == b"mem".as_slice() {
        Some(Command::Mem(read_span(MOST_BYTES, from, count)?))
    } else if verb == b"dis".as_slice() {
        Some(Command::Dis(read_span(MOST_INSTRUCTIONS, from, count)?))
    } else if verb == b"vdis".as_slice() {
        Some(Command::Vdis(read_vg_span(from, count)?))
    } else {
        None
    }
}

/// The command of a line that isn't empty.
#[tactic(auto, using(crate::proofs::Words::command_of_more))]
pub fn read_command(line: &[u8]) -> Option<Command>
    ensures { result ≡ command_of (words_of line.now) }
{
    match read_word(line) {
        (verb, None) => read_plain(verb),
        (verb, Some(rest)) => match read_word(rest) {
            (argument, None) => read_argument(verb, argument),
            (from, Some(rest)) => match read_word(rest) {
                (count, None) => read_spanned(verb, from, count),
                _ => None,
            },
        },
    }
}

/// The most bytes of a script.
pub const SCRIPT_LIMIT: usize = 65_536;

/// The command of a line, where no more stops stand with it than may.
fn read_next(line: &[u8], stops: &Breakpoints) -> Option<Command>
    ensures command { result ≡ next_command stops.now line.now }
    ensures few { IfSome result (λ command. are_few (stops_after command stops.now) ≡ true) }
{
    let command = read_command(line)?;
    if stops.has_room(command) {
        Some(command)
    } else {
        None
    }
}

/// Reads the text of a script. Each line ends with LF, which may be missing after the last, and an
/// empty line does nothing.
///
/// A line is a command and its arguments, parted by single spaces. It is malformed where it is
/// another, and where more than 16 breaks or watches would stand with it. The text has at most
/// `SCRIPT_LIMIT` bytes. Memory is taken for the commands alone.
pub fn read_script(alloc: Global, text: &[u8]) -> Result<Vec<Command>, ScriptFault>
    ensures reads { ReadsScript (λ commands. commands.items) text.now result }
    ensures fits { IfOk result (λ commands. Fit no_stops commands.items) }
{
    if text.len() > SCRIPT_LIMIT {
        return Err(ScriptFault::TooLong);
    }
    let mut commands = Vec::new(alloc);
    let mut stops = Breakpoints::new();
    let mut rest = text;
    let mut number = 0;
    'lines: while !rest.is_empty() {
        let (line, after) = read_line(rest);
        rest = after;
        number += 1;
        if line.is_empty() {
            continue;
        }
        let Some(command) = read_next(line, &stops) else {
            return Err(ScriptFault::BadCommand(number));
        };
        stops.note(command);
        commands
            .push(command)
            .map_err(|_| ScriptFault::OutOfMemory)?;
    }
    Ok(commands)
}
