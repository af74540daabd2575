ghost use Rattle.std.specs.Prelude.{◌≡◌};
ghost use Rattle.gravitar_commands.specs.declared.failure.Failure.TheVariants.{NoMemory, Outside};

use board_base::OutOfMemory;
use outside_io::{Failed, SinkFault};

/// Why a command stopped before its end, with its note where that names a file.
#[derive(Debug, Drop)]
pub enum Failure {
    /// A file breaks its grammar: its name and the cause.
    Bad(String),
    /// A file isn't there: its name.
    Absent(String),
    /// A fault of the shelf or of the output.
    Outside,
    /// No memory.
    NoMemory,
}

impl From<OutOfMemory> for Failure {
    ghost from_gives = { λ _ failure. failure ≡ NoMemory };

    fn from(_error: OutOfMemory) -> Failure {
        Failure::NoMemory
    }
}

impl From<SinkFault> for Failure {
    ghost from_gives = { λ _ failure. failure ≡ Outside };

    fn from(_fault: SinkFault) -> Failure {
        Failure::Outside
    }
}

impl From<Failed> for Failure {
    ghost from_gives = { λ _ failure. failure ≡ Outside };

    fn from(_failed: Failed) -> Failure {
        Failure::Outside
    }
}

/// How a run ended: at its limit, or at an undocumented opcode.
#[derive(Clone, Copy, Debug, PartialEq, Eq)]
pub enum Ending {
    /// At its limit.
    Done,
    /// At an undocumented opcode.
    Jammed,
}
