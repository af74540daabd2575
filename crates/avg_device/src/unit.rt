ghost use Rattle.std.specs.Prelude.{◌≡◌, ℕ, ◌+◌, ◌≤◌, List, length};
ghost use Rattle.board_base.specs.Counts.{Counted};
ghost use Rattle.board_base.specs.Records.{MadeBetween};
ghost use Rattle.board_base.specs.Ticks.{made, ticks};
ghost use Rattle.board_base.specs.Trail.{Extended};
ghost use Rattle.board_base.specs.Vg.{VgValue};
ghost use Rattle.avg_device.specs.Tick.{vg_gives, vg_go, vg_reset, vg_tick};

use board_base::{CLOCK_END, Clocked, Part, Trail, VectorMemory, VgState};

/// A vector generator. This project's own choice.
pub trait VectorUnit: Clocked {
    ghost use Rattle.board_base.specs.Vg.{VgValue};

    /// The generator as it stands.
    ghost device: { Self → VgValue };

    /// Takes on a state.
    fn load(&mut self, state: &VgState)
        ensures state { device self.new ≡ state.now }
        ensures counted { Counted (Self.calls self.old) (Self.calls self.new) };

    /// Does the `n` clocks from `from` on, over a memory that stays, and appends their strokes.
    fn advance(&mut self, memory: &VectorMemory, from: u64, n: u64, trail: &mut Trail)
        requires room { n ≤ trail.old.spare }
        requires clocks { from + n ≤ CLOCK_END }
        ensures state { device self.new ≡ ticks (vg_tick memory.now) from n (device self.old) }
        ensures records { Extended trail.old trail.new (made (vg_tick memory.now) vg_gives from n (device self.old)) }
        ensures counted { Counted (Self.calls self.old) (Self.calls self.new) };

    /// Begins at the first word, whatever was under way.
    fn go(&mut self)
        ensures state { device self.new ≡ vg_go (device self.old) }
        ensures counted { Counted (Self.calls self.old) (Self.calls self.new) };

    /// Halts, whatever was under way.
    fn reset(&mut self)
        ensures state { device self.new ≡ vg_reset (device self.old) }
        ensures counted { Counted (Self.calls self.old) (Self.calls self.new) };

    /// Whether it is halted.
    fn halted(&self) -> bool
        ensures { result ≡ (device self.now).halted };

    /// The state as it stands.
    fn state(&self) -> VgState
        ensures { result ≡ device self.now };
}

/// A clock gives one stroke at most, so that a move has room where its trail has room for as many
/// records as there are clocks; and each stroke is of its own clock. It states a law, and does
/// nothing.
#[tactic(auto, using(crate::proofs::ManyTicks::few_records))]
pub fn one_record_a_clock()
    ensures clock { (at : ℕ) → (v : VgValue) → length (vg_gives at v) ≤ 1 }
    ensures clocks { (memory : List ℕ) → (from : ℕ) → (n : ℕ) → (v : VgValue) → length (made (vg_tick memory) vg_gives from n v) ≤ n }
    ensures stroke { (at : ℕ) → (v : VgValue) → MadeBetween Part.Generator at (vg_gives at v) (at + 1) }
    ensures strokes { (memory : List ℕ) → (from : ℕ) → (n : ℕ) → (v : VgValue)
        → MadeBetween Part.Generator from (made (vg_tick memory) vg_gives from n v) (from + n) }
{}
