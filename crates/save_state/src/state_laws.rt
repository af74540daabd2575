//! Laws on saved boards that no call needs when it runs. Each is the contract of a function that
//! does nothing.
ghost use Rattle.std.specs.Prelude.{◌≡◌, ℕ, List, Result, None, IfSome};
ghost use Rattle.std.specs.List.{sum_by};
ghost use Rattle.board_base.specs.Board.{BoardValue};
ghost use Rattle.save_state.specs.declared.fault.StateFault.{StateFault};
ghost use Rattle.cpu_core.specs.Places.{IsMiddle};
ghost use Rattle.cpu_table.specs.Opcodes.{row_of};
ghost use Rattle.save_state.specs.Reading.{IsWhole, ReadsState};
ghost use Rattle.save_state.specs.StateBytes.{table};

use crate::STATE_LEN;
use board_base::BoardState;

/// Bytes are read in one way: what they are read as, a board or a refusal, is the same in any two
/// readings of them.
#[tactic(auto, using(crate::proofs::OneReading::one_reading))]
pub fn one_reading()
    ensures { (file : List ℕ) → (first second : Result BoardValue StateFault) → ReadsState file first → ReadsState file second → first ≡ second }
{}

/// The bytes of a saved board, which are those of its fields in either version.
pub fn state_numbers()
    ensures bytes { STATE_LEN ≡ 4356 }
    ensures first { sum_by (λ row. row.width) (table 1) ≡ 4356 }
    ensures second { sum_by (λ row. row.width) (table 2) ≡ 4356 }
{}

/// Each part of a board is in range, as its type keeps it. The reads are for the prover: each
/// opens the part that it reads.
pub fn lemma_ranges(state: &BoardState)
    requires undocumented { IfSome state.now.cpu.jam (λ o. row_of o ≡ None) }
    requires place { IfSome state.now.cpu.mid (λ _. IsMiddle state.now.cpu) }
    ensures { IsWhole state.now }
{
    let _pc = state.cpu.pc;
    if let Some(mid) = state.cpu.mid {
        let _count = mid.count;
    }
    let _phase = state.divider.phase;
    let _halted = state.vg.halted;
    let _first_tone = state.sound1.tone;
    let _second_tone = state.sound2.tone;
    let _hold = state.earom.hold;
}
