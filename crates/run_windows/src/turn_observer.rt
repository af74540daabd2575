ghost use Rattle.std.specs.Prelude.{◌≡◌, ℕ, List, OnOk};
ghost use Rattle.outside_io.specs.Causes.{HasCause};
ghost use Rattle.outside_io.specs.Sink.{Takes};
ghost use Rattle.tape_ports.specs.declared.entry.TapeEntry.{TapeEntry};
ghost use Rattle.lockstep_board.specs.Lockstep.{Board};
ghost use Rattle.lockstep_board.specs.Order.{Recorded};
ghost use Rattle.run_windows.specs.TurnObserver.{FollowsInParts, StandsStill};
ghost use Rattle.run_windows.specs.RecordObserver.{recorded};

use board_base::Trails;
use catchup_engine::Tracer;
use outside_io::{Sink, SinkFault};

/// A tracer of a run, which takes the records of its turns too, part by part: after each turn that
/// gave it enough, and where the trails want room.
pub trait TurnObserver: Tracer {
    /// It can follow the run from a board to a limit.
    ghost can_follow: { Self → List TapeEntry → ℕ → Board → Type 0 };

    /// The bytes that it writes of that run.
    ghost writes: { Self → List TapeEntry → ℕ → Board → List ℕ };

    /// What it is after that run.
    ghost after_run: { Self → List TapeEntry → ℕ → Board → Self };

    /// It can take the records of a part, whose turns it got.
    ghost can_take: { Self → Recorded → Type 0 };

    /// The bytes that it writes when it takes them.
    ghost part_writes: { Self → Recorded → List ℕ };

    /// What it is then.
    ghost after_part: { Self → Recorded → Self };

    /// Takes the records of a part. After a fault it is only to be dropped.
    fn take_part<O: Sink>(&mut self, trails: &Trails<'_>, out: &mut O) -> Result<(), SinkFault>
        requires room { can_take self.old (recorded trails.now.vector.now.records trails.now.sound1.now.records
            trails.now.sound2.now.records trails.now.board.now.records) }
        ensures taken { Takes (O.taken out.old) (O.taken out.new) (part_writes self.old (recorded trails.now.vector.now.records trails.now.sound1.now.records
            trails.now.sound2.now.records trails.now.board.now.records)) result }
        ensures cause { HasCause (O.faults out.old) (O.faults out.new) result }
        ensures next { OnOk result (self.new ≡ after_part self.old (recorded trails.now.vector.now.records trails.now.sound1.now.records
            trails.now.sound2.now.records trails.now.board.now.records)) };

    /// To follow a first part, and then the rest, is to follow the whole.
    ghost in_parts: { FollowsInParts Self.next Self.has_enough can_follow writes after_run can_take part_writes after_part };

    /// A run that is over writes nothing.
    ghost stands_still: { StandsStill writes after_run };
}
