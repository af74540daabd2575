use board_base::OutOfMemory;
use outside_io::SinkFault;
use std::alloc::{AllocError, AllocFailed};
use std::num::ParseIntError;

/// Why the suite was not done to its end.
#[derive(Clone, Copy)]
pub enum Stopped {
    /// A file of the suite isn't there, is too long, or couldn't be read.
    File,
    /// A line of the suite is malformed.
    Form,
    /// What a row shows couldn't be written.
    Output,
    /// There was no memory.
    NoMemory,
}

impl Stopped {
    /// The note on it, a line.
    pub fn text(self) -> &'static [u8] {
        match self {
            Stopped::File => b"board_rows: no such file\n",
            Stopped::Form => b"board_rows: the next row has a line of no form\n",
            Stopped::Output => b"board_rows: no output\n",
            Stopped::NoMemory => b"board_rows: no memory\n",
        }
    }
}

impl From<ParseIntError> for Stopped {
    fn from(_: ParseIntError) -> Stopped {
        Stopped::Form
    }
}

impl From<SinkFault> for Stopped {
    fn from(_: SinkFault) -> Stopped {
        Stopped::Output
    }
}

impl From<OutOfMemory> for Stopped {
    fn from(_: OutOfMemory) -> Stopped {
        Stopped::NoMemory
    }
}

impl From<AllocError> for Stopped {
    fn from(_: AllocError) -> Stopped {
        Stopped::NoMemory
    }
}

impl<T: Drop> From<AllocFailed<T>> for Stopped {
    fn from(_: AllocFailed<T>) -> Stopped {
        Stopped::NoMemory
    }
}
