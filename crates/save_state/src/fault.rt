ghost use Rattle.std.specs.Prelude.{Some};
ghost use Rattle.save_state.specs.Texts.{state_fault_text};

use std::fmt;
use thiserror::Error;

/// Why bytes are no saved board.
#[derive(Clone, Copy, Debug, PartialEq, Eq, Error)]
pub enum StateFault {
    /// The number of bytes, where it isn't `STATE_LEN`.
    Length(usize),
    /// Else byte 0, where it is neither 1 nor 2.
    Version(u8),
    /// Else the offset of the first field that is out of its range.
    Field(usize),
}

impl fmt::Display for StateFault {
    ghost output = { λ fault. Some (state_fault_text fault) };

    fn fmt<W: fmt::Write>(&self, f: &mut fmt::Formatter<W>) -> fmt::Result {
        match self {
            StateFault::Length(n) => write!(f, "length {n}"),
            StateFault::Version(version) => write!(f, "version {version}"),
            StateFault::Field(at) => write!(f, "field {at}"),
        }
    }
}
