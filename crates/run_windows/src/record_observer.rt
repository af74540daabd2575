ghost use Rattle.std.specs.Prelude.{◌≡◌, ℕ, List, OnOk};
ghost use Rattle.outside_io.specs.Causes.{HasCause};
ghost use Rattle.outside_io.specs.Sink.{Takes};
ghost use Rattle.lockstep_board.specs.Order.{Recorded};
ghost use Rattle.run_windows.specs.RecordObserver.{TakesInParts, recorded};

use board_base::Trails;
use outside_io::{Sink, SinkFault};

/// An observer of the records of a run, which takes them window by window.
pub trait RecordObserver {
    /// It can take these records, which are those of the clocks from one up to another.
    ghost can_take: { Self → ℕ → Recorded → ℕ → Type 0 };

    /// The bytes that it writes of these records, and of the clocks before one.
    ghost writes: { Self → Recorded → ℕ → List ℕ };

    /// What it is after them.
    ghost next: { Self → Recorded → ℕ → Self };

    /// Takes the records of a window, which are those of the clocks before `upto`. After a fault it
    /// is only to be dropped.
    fn take<O: Sink>(
        &mut self,
        trails: &Trails<'_>,
        upto: u64,
        out: &mut O,
    ) -> Result<(), SinkFault>
        requires room { (from : ℕ) × can_take self.old from (recorded trails.now.vector.now.records trails.now.sound1.now.records
            trails.now.sound2.now.records trails.now.board.now.records) upto }
        ensures taken { Takes (O.taken out.old) (O.taken out.new) (writes self.old (recorded trails.now.vector.now.records trails.now.sound1.now.records
            trails.now.sound2.now.records trails.now.board.now.records) upto) result }
        ensures cause { HasCause (O.faults out.old) (O.faults out.new) result }
        ensures next { OnOk result (self.new ≡ next self.old (recorded trails.now.vector.now.records trails.now.sound1.now.records
            trails.now.sound2.now.records trails.now.board.now.records) upto) };

    /// To take a first part, and then the rest, is to take the whole.
    ghost in_parts: { TakesInParts can_take writes next };
}
