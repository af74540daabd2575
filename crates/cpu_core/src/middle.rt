ghost use Rattle.std.specs.Prelude.{◌≡◌, ◌↔◌, All, IsTrue, drop};
ghost use Rattle.cpu_alu.specs.Flags.{is_masked};
ghost use Rattle.cpu_core.specs.Sequences.{next_of, IsEnd};
ghost use Rattle.cpu_core.specs.Places.{IsMiddle, IsPlace};

use crate::pause::next_access;
use crate::registers::Registers;
use crate::replay::Next;
use crate::seen::Seen;
use board_base::{CpuState, Mid, Sequence};
use cpu_alu::Flags;

/// Whether interrupts are masked.
fn is_masked(p: u8) -> bool
    ensures { result ≡ is_masked p }
{
    Flags::from_byte(p).interrupt
}

/// Whether the bytes past the accesses made are 0.
fn has_zeros(mid: &Mid) -> bool
    ensures { IsTrue result ↔ All (λ b. b ≡ 0) (drop mid.now.count mid.now.bytes) }
{
    mid.bytes[usize::from(mid.count)..]
        .iter()
        .all(|byte| *byte == 0)
}

/// Whether a sequence is complete after these bytes.
fn is_complete(start: Registers, sequence: Sequence, given: &[u8]) -> bool
    ensures { IsTrue result ↔ IsEnd (next_of start sequence given.now) }
{
    match next_access(start, sequence, given) {
        Next::End(_) => true,
        _ => false,
    }
}

/// Whether a sequence that began with these registers has come to this place.
#[tactic(auto, using(crate::proofs::PlaceLemmas::places))]
fn is_place(start: Registers, mid: Mid) -> bool
    ensures { IsTrue result ↔ IsPlace start mid }
{
    if mid.count == 0 || !has_zeros(&mid) {
        return false;
    }
    if mid.sequence == Sequence::Reset && !is_masked(start.p) {
        return false;
    }
    let seen = Seen::of(&mid);
    !is_complete(start, mid.sequence, seen.bytes())
}

/// Whether a processor stands inside a sequence: some of its accesses are made, and it isn't
/// complete. The bytes aren't compared with memory.
pub fn is_middle(state: &CpuState) -> bool
    ensures { IsTrue result ↔ IsMiddle state.now }
{
    match state.mid {
        Some(mid) => state.jam.is_none() && is_place(Registers::of(state), mid),
        None => false,
    }
}
