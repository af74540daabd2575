use std::fmt;
use thiserror::Error;

/// Why a script wasn't run to its end.
#[derive(Clone, Copy, Debug, PartialEq, Eq, Error)]
pub enum DebugFault {
    /// The first malformed line, counted from 1. Nothing was run or written.
    BadCommand(u32),
    /// A write failed. A first part of the text was taken.
    SinkFault,
    /// Nothing was run or written.
    OutOfMemory,
}

impl fmt::Display for DebugFault {
    ghost use Rattle.std.specs.Prelude.{Some};
    ghost use Rattle.board_debug.specs.Texts.{debug_fault_text};

    ghost output = { λ fault. Some (debug_fault_text fault) };

    fn fmt<W: fmt::Write>(&self, f: &mut fmt::Formatter<W>) -> fmt::Result {
        match self {
            DebugFault::BadCommand(line) => write!(f, "line {line}: command"),
            DebugFault::SinkFault => f.write_str("outside fault"),
            DebugFault::OutOfMemory => f.write_str("no memory"),
        }
    }
}
