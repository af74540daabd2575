//! What a sequence does to the list of routines.
ghost use Rattle.std.specs.Prelude.{◌≡◌};
ghost use Rattle.cycle_profile.specs.Turns.{stays, turn_of};

use board_base::Sequence;
use cpu_table::{Op, entry};

/// What a sequence does to the list of routines.
#[derive(Clone, Copy)]
pub(crate) enum Turn {
    /// A routine is called.
    Call,
    /// The last routine returns.
    Return,
    /// The program begins anew.
    Restart,
    /// The list stays.
    Stay,
}

/// What a sequence does, by its opcode.
pub(crate) fn turn_by(sequence: Sequence, opcode: u8) -> Turn
    ensures { result ≡ turn_of sequence opcode }
{
    match sequence {
        Sequence::Interrupt => Turn::Call,
        Sequence::Reset => Turn::Restart,
        Sequence::Opcode => match entry(opcode) {
            Some((Op::Jsr | Op::Brk, _)) => Turn::Call,
            Some((Op::Rts | Op::Rti, _)) => Turn::Return,
            _ => Turn::Stay,
        },
    }
}

/// Whether an instruction of this opcode leaves the list as it is.
#[inline(always)]
pub fn stays(opcode: u8) -> bool
    ensures { result ≡ stays opcode }
{
    matches!(turn_by(Sequence::Opcode, opcode), Turn::Stay)
}
