use std::fmt;
use thiserror::Error;

/// Why a text is no script.
#[derive(Clone, Copy, Debug, PartialEq, Eq, Error)]
pub enum ScriptFault {
    /// More than `SCRIPT_LIMIT` bytes, which comes before all else.
    TooLong,
    /// The first malformed line, counted from 1.
    BadCommand(u32),
    /// No memory for the commands.
    OutOfMemory,
}

impl fmt::Display for ScriptFault {
    ghost use Rattle.std.specs.Prelude.{Some};
    ghost use Rattle.debug_script.specs.Texts.{script_fault_text};

    ghost output = { λ fault. Some (script_fault_text fault) };

    fn fmt<W: fmt::Write>(&self, f: &mut fmt::Formatter<W>) -> fmt::Result {
        match self {
            ScriptFault::TooLong => f.write_str("too long"),
            ScriptFault::BadCommand(line) => write!(f, "line {line}: command"),
            ScriptFault::OutOfMemory => f.write_str("no memory"),
        }
    }
}
