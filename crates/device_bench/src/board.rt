ghost use Rattle.std.specs.Prelude.{◌≡◌, ◌≤◌, [], ⊤};
ghost use Rattle.lockstep_board.specs.Order.{cleared, records_of};
ghost use Rattle.lockstep_board.specs.Run.{to_boundary};
ghost use Rattle.run_windows.specs.SyncedMachine.{loan_of, value_of};
ghost use Rattle.device_bench.specs.Boards.{empty_tallies, tallies_of, with_records};
ghost use Rattle.device_bench.specs.BoardLaws.{tallied_in_parts};

use crate::tally::Tally;
use board_base::{CLOCK_LIMIT, Trails};
use catchup_engine::Machine;
use outside_io::{Sink, SinkFault};
use run_windows::{NullSink, RecordObserver, SyncedMachine, Until};
use tape_ports::Tape;

/// What records a board has made, part by part: strokes, levels of each POKEY, and latches and
/// resets.
#[derive(Clone, Copy, PartialEq, Eq)]
pub struct BoardTally {
    pub strokes: Tally,
    pub levels1: Tally,
    pub levels2: Tally,
    pub written: Tally,
}

impl BoardTally {
    /// No record.
    pub fn new() -> BoardTally
        ensures { result ≡ empty_tallies }
    {
        BoardTally {
            strokes: Tally::new(),
            levels1: Tally::new(),
            levels2: Tally::new(),
            written: Tally::new(),
        }
    }
}

impl RecordObserver for BoardTally {
    ghost can_take = { λ _ _ _ _. ⊤ };

    ghost writes = { λ _ _ _. [] };

    ghost next = { λ t records _. with_records t records };

    ghost in_parts = { tallied_in_parts };

    fn take<O: Sink>(
        &mut self,
        trails: &Trails<'_>,
        _upto: u64,
        _out: &mut O,
    ) -> Result<(), SinkFault> {
        self.strokes.take(trails.vector.records());
        self.levels1.take(trails.sound1.records());
        self.levels2.take(trails.sound2.records());
        self.written.take(trails.board.records());
        Ok(())
    }
}

/// Runs an engine to the limit, window by window, and returns what records there were.
pub fn run_windows<M: Machine>(
    synced: &mut SyncedMachine<'_, M>,
    tape: &Tape,
    limit: u64,
) -> BoardTally
    requires limit { limit ≤ CLOCK_LIMIT }
    ensures same { loan_of synced.new ≡ loan_of synced.old }
    ensures board { (value_of synced.new).board ≡ cleared (to_boundary tape.now.entries limit (value_of synced.old).board) }
    ensures tally { result ≡ tallies_of (records_of (to_boundary tape.now.entries limit (value_of synced.old).board)) }
{
    let mut tally = BoardTally::new();
    let Ok(_stop) = synced.watch(tape, Until::Boundary(limit), &mut tally, &mut NullSink) else {
        unreachable!();
    };
    tally
}
