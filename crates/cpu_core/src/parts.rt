ghost use Rattle.std.specs.Prelude.{◌++◌, ◌-◌, ◌≤◌, ℕ, List, [], IfSome, IsSome};
ghost use Rattle.board_base.specs.Cpu.{CpuValue};
ghost use Rattle.board_base.specs.declared.cpu.Sequence.{Sequence};
ghost use Rattle.cpu_core.specs.Registers.{RegistersValue, registers_of};
ghost use Rattle.cpu_core.specs.Sequences.{Moves, Runs};
ghost use Rattle.cpu_core.specs.Places.{Advances, given_by};

use crate::bus::Bus;

/// A sequence may stop after any of its accesses and go on: the accesses of both parts, one after
/// another, are those of the whole, and a processor that has started a sequence by some clocks and
/// then goes on for the rest of the seven has done it all. It states a law, and does nothing.
pub fn in_two_parts<B: Bus>(feed: &B::Feed)
    ensures joined { (r : RegistersValue) (q : Sequence) (first rest : List ℕ) (s m t : B)
        → Moves (B.step feed.now) r q [] first s m → Moves (B.step feed.now) r q first rest m t
        → Moves (B.step feed.now) r q [] (first ++ rest) s t }
    ensures parted { (r : RegistersValue) (q : Sequence) (first rest : List ℕ) (s t : B)
        → Moves (B.step feed.now) r q [] (first ++ rest) s t
        → (m : B) × Moves (B.step feed.now) r q [] first s m × Moves (B.step feed.now) r q first rest m t }
    ensures done { (r : RegistersValue) (q : Sequence) (clocks started made : ℕ) (s m t : B) (at end : CpuValue)
        → clocks ≤ 7 → Advances (B.step feed.now) r q [] clocks started s m at → IsSome at.mid
        → IfSome at.mid (λ p. Advances (B.step feed.now) (registers_of at) p.sequence (given_by p) (7 - clocks) made m t end)
        → Runs (B.step feed.now) r q s t end }
{}
