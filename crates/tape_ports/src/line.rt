ghost use Rattle.std.specs.Prelude.{◌≡◌, ◌≤◌, IfOk, IfSome};
ghost use Rattle.plain_text.specs.Lines.{words_of};
ghost use Rattle.tape_ports.specs.Ports.{IsPort, port_of};
ghost use Rattle.tape_ports.specs.Grammar.{clock_after, end_line, entry_line, tape_line_of, ComesAfter};

use crate::entry::{Port, TapeEntry};
use crate::fault::LineCause;
use board_base::CLOCK_LIMIT;
use plain_text::{read_digits, read_value, read_word};

/// What a good line states: an entry, or the END clock.
#[derive(Clone, Copy)]
pub enum Line {
    /// The entry of a line of three words.
    Entry(TapeEntry),
    /// The clock of the END line.
    End(u64),
}

/// The port of a name.
fn read_port(name: &[u8]) -> Option<Port>
    ensures port { result ≡ port_of name.now }
    ensures pot { IfSome result IsPort }
{
    match name {
        b"IN0" => Some(Port::In0),
        b"IN3" => Some(Port::In3),
        b"IN4" => Some(Port::In4),
        [b'P', digit @ b'0'..=b'7'] => Some(Port::Pot1(*digit - b'0')),
        [b'Q', digit @ b'0'..=b'7'] => Some(Port::Pot2(*digit - b'0')),
        _ => None,
    }
}

/// A clock that is in range and doesn't fall.
#[tactic(auto, unfolding(crate::specs::Grammar::clock_after))]
fn check_clock(before: u64, clock: u64) -> Result<u64, LineCause>
    ensures clock { result ≡ clock_after before clock }
    ensures after { IfOk result (λ now. (before ≤ now) × (now ≤ CLOCK_LIMIT)) }
{
    if clock > CLOCK_LIMIT {
        Err(LineCause::Clock)
    } else if clock < before {
        Err(LineCause::Falls)
    } else {
        Ok(clock)
    }
}

/// What a line of two words states.
#[tactic(auto, unfolding(crate::specs::Grammar::end_line))]
fn read_end(before: u64, clock: &[u8], word: &[u8]) -> Result<Line, LineCause>
    ensures line { result ≡ end_line before clock.now word.now }
    ensures after { IfOk result (ComesAfter before) }
{
    let (Some(clock), b"END") = (read_digits(clock), word) else {
        return Err(LineCause::Form);
    };
    let clock = check_clock(before, clock)?;
    Ok(Line::End(clock))
}

/// What a line of three words states.
#[tactic(auto, unfolding(crate::specs::Grammar::entry_line))]
fn read_entry(before: u64, clock: &[u8], name: &[u8], value: &[u8]) -> Result<Line, LineCause>
    ensures line { result ≡ entry_line before clock.now name.now value.now }
    ensures after { IfOk result (ComesAfter before) }
{
    if name == b"END".as_slice() {
        return Err(LineCause::Form);
    }
    let (Some(clock), Some(value)) = (read_digits(clock), read_value(value)) else {
        return Err(LineCause::Form);
    };
    let port = read_port(name).ok_or(LineCause::Port)?;
    let clock = check_clock(before, clock)?;
    Ok(Line::Entry(TapeEntry { clock, port, value }))
}

/// What a line states after one with the clock `before`.
#[tactic(auto, using(crate::proofs::Words::line_of_more))]
pub fn parse_line(before: u64, line: &[u8]) -> Result<Line, LineCause>
    ensures line { result ≡ tape_line_of before (words_of line.now) }
    ensures after { IfOk result (ComesAfter before) }
{
    let (clock, Some(rest)) = read_word(line) else {
        return Err(LineCause::Form);
    };
    match read_word(rest) {
        (word, None) => read_end(before, clock, word),
        (name, Some(rest)) => match read_word(rest) {
            (value, None) => read_entry(before, clock, name, value),
            _ => Err(LineCause::Form),
        },
    }
}
