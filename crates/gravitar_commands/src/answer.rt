ghost use Rattle.std.specs.Prelude.{◌≡◌};
ghost use Rattle.gravitar_commands.specs.Endings.{status_of_ending};
ghost use Rattle.gravitar_commands.specs.Stages.{status_of, note_of};

use crate::failure::{Ending, Failure};

/// The note on a fault of the shelf or of the output.
pub const OUTSIDE_FAULT: &[u8] = b"gravitar: outside fault\n";

/// The note on lack of memory.
pub const NO_MEMORY: &[u8] = b"gravitar: no memory\n";

/// The status of a command that stopped.
pub fn status(failure: &Failure) -> u8
    ensures { result ≡ status_of failure.now }
{
    match failure {
        Failure::Bad(_) => 4,
        Failure::Absent(_) => 5,
        Failure::Outside => 6,
        Failure::NoMemory => 7,
    }
}

/// The note of a command that stopped.
pub fn note(failure: &Failure) -> &[u8]
    ensures { result.now ≡ note_of failure.now }
{
    match failure {
        Failure::Bad(note) | Failure::Absent(note) => note.as_bytes(),
        Failure::Outside => OUTSIDE_FAULT,
        Failure::NoMemory => NO_MEMORY,
    }
}

/// The status of a run that has ended.
pub fn ending_status(ending: Ending) -> u8
    ensures { result ≡ status_of_ending ending }
{
    match ending {
        Ending::Done => 0,
        Ending::Jammed => 3,
    }
}
