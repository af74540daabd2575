use std::fmt;
use thiserror::Error;

/// What is wrong with a line of a tape.
///
/// On one line `AfterEnd` is looked at first, and then the others in this order. `NoEnd` is
/// reported of the line after the last.
#[derive(Clone, Copy, Debug, PartialEq, Eq, Error)]
pub enum LineCause {
    /// It isn't a clock, a port and a value, nor a clock and `END`.
    Form,
    /// Its second word names no port.
    Port,
    /// Its clock is above `CLOCK_LIMIT`.
    Clock,
    /// Its clock is below that of the line before.
    Falls,
    /// No END line came.
    NoEnd,
    /// The END line stands before it.
    AfterEnd,
}

impl fmt::Display for LineCause {
    ghost use Rattle.std.specs.Prelude.{Some};
    ghost use Rattle.tape_ports.specs.Texts.{line_cause_text};

    ghost output = { λ cause. Some (line_cause_text cause) };

    fn fmt<W: fmt::Write>(&self, f: &mut fmt::Formatter<W>) -> fmt::Result {
        f.write_str(match self {
            LineCause::Form => "form",
            LineCause::Port => "port",
            LineCause::Clock => "clock",
            LineCause::Falls => "falls",
            LineCause::NoEnd => "no end",
            LineCause::AfterEnd => "after end",
        })
    }
}

/// Why a text is no tape.
#[derive(Clone, Copy, Debug, PartialEq, Eq, Error)]
pub enum TapeFault {
    /// More than `TAPE_LIMIT` bytes, which comes before all else.
    TooLong,
    /// The first bad line, counted from 1, and what is wrong with it.
    BadLine { line: u64, cause: LineCause },
    /// No memory for the entries.
    OutOfMemory,
}

impl fmt::Display for TapeFault {
    ghost use Rattle.std.specs.Prelude.{Some};
    ghost use Rattle.tape_ports.specs.Texts.{tape_fault_text};

    ghost output = { λ fault. Some (tape_fault_text fault) };

    fn fmt<W: fmt::Write>(&self, f: &mut fmt::Formatter<W>) -> fmt::Result {
        match self {
            TapeFault::TooLong => f.write_str("too long"),
            TapeFault::BadLine { line, cause } => write!(f, "line {line}: {cause}"),
            TapeFault::OutOfMemory => f.write_str("no memory"),
        }
    }
}
