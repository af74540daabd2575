ghost use Rattle.std.specs.Prelude.{Some};
ghost use Rattle.asm_text.specs.Texts.{source_cause_text, source_fault_text};

use std::fmt;
use thiserror::Error;

/// What is wrong with a line of a source.
#[derive(Clone, Copy, Debug, PartialEq, Eq, Error)]
pub enum AsmCause {
    /// A piece that is no token at all: a stray byte, or a name past its greatest length.
    BadToken,
    /// What begins as a number does and writes none of 16 bits in its base.
    BadNumber,
    /// The line's tokens make up no statement.
    NoSuchForm,
    /// A second value for one name.
    TwiceNamed,
    /// A name for which no value is known.
    UnknownName,
    /// A value that its place in the statement can't take.
    OutOfRange,
    /// The line's bytes would fall beside the ROM.
    OutsideRom,
    /// One of the line's bytes was given before.
    Overlap,
}

/// Why a source is refused.
#[derive(Clone, Copy, Debug, PartialEq, Eq, Error)]
pub enum AsmFault {
    /// More than `TEXT_LIMIT` bytes, which comes before all else.
    TooLong,
    /// The first bad line, counted from 1, and what is wrong with it.
    Line { line: u32, cause: AsmCause },
    /// No memory for the tokens, or for what is kept of the lines.
    OutOfMemory,
}

impl fmt::Display for AsmCause {
    ghost output = { λ cause. Some (source_cause_text cause) };

    fn fmt<W: fmt::Write>(&self, f: &mut fmt::Formatter<W>) -> fmt::Result {
        f.write_str(match self {
            AsmCause::BadToken => "bad token",
            AsmCause::BadNumber => "bad number",
            AsmCause::NoSuchForm => "no such form",
            AsmCause::TwiceNamed => "twice named",
            AsmCause::UnknownName => "unknown name",
            AsmCause::OutOfRange => "out of range",
            AsmCause::OutsideRom => "outside rom",
            AsmCause::Overlap => "overlap",
        })
    }
}

impl fmt::Display for AsmFault {
    ghost output = { λ fault. Some (source_fault_text fault) };

    fn fmt<W: fmt::Write>(&self, f: &mut fmt::Formatter<W>) -> fmt::Result {
        match self {
            AsmFault::TooLong => f.write_str("too long"),
            AsmFault::Line { line, cause } => write!(f, "line {line}: {cause}"),
            AsmFault::OutOfMemory => f.write_str("no memory"),
        }
    }
}
