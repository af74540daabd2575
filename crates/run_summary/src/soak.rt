ghost use Rattle.std.specs.Prelude.{◌≡◌, ◌≤◌};
ghost use Rattle.outside_io.specs.Causes.{HasCause};
ghost use Rattle.outside_io.specs.Sink.{Takes};
ghost use Rattle.lockstep_board.specs.Order.{cleared, records_of};
ghost use Rattle.lockstep_board.specs.Run.{to_boundary};
ghost use Rattle.run_windows.specs.SyncedMachine.{loan_of, value_of};
ghost use Rattle.run_summary.specs.SoakText.{run_text};
ghost use Rattle.run_summary.specs.Summary.{summary_of};

use crate::counter::Counter;
use crate::summary::Summary;
use crate::text::write_summary;
use board_base::CLOCK_LIMIT;
use catchup_engine::Machine;
use outside_io::{Sink, SinkFault};
use run_windows::{NullSink, SyncedMachine, Until};
use tape_ports::Tape;

/// Runs the board to the first boundary that isn't before the limit, and counts its records.
fn run_counted<M: Machine>(synced: &mut SyncedMachine<'_, M>, tape: &Tape, limit: u64) -> Summary
    requires limit { limit ≤ CLOCK_LIMIT }
    ensures same { loan_of synced.new ≡ loan_of synced.old }
    ensures summary { result ≡ summary_of (records_of (to_boundary tape.now.entries limit (value_of synced.old).board)) }
    ensures board { (value_of synced.new).board ≡ cleared (to_boundary tape.now.entries limit (value_of synced.old).board) }
{
    let mut counter = Counter::new();
    let Ok(_stop) = synced.watch(tape, Until::Boundary(limit), &mut counter, &mut NullSink) else {
        unreachable!();
    };
    counter.total()
}

/// Runs the board over a tape to the first boundary that isn't before the limit or to an
/// undocumented opcode, and writes seven lines in place of its log: how many strokes, levels of
/// each POKEY, latch writes and watchdog resets were recorded, the sum of all intensities and
/// levels, and the board's clock.
///
/// Records are counted and forgotten window by window. It takes no memory.
pub fn run_soak<M: Machine, O: Sink>(
    synced: &mut SyncedMachine<'_, M>,
    tape: &Tape,
    limit: u64,
    out: &mut O,
) -> Result<(), SinkFault>
    requires limit { limit ≤ CLOCK_LIMIT }
    ensures same { loan_of synced.new ≡ loan_of synced.old }
    ensures taken { Takes (O.taken out.old) (O.taken out.new) (run_text tape.now.entries limit (value_of synced.old).board) result }
    ensures cause { HasCause (O.faults out.old) (O.faults out.new) result }
    ensures board { (value_of synced.new).board ≡ cleared (to_boundary tape.now.entries limit (value_of synced.old).board) }
{
    let summary = run_counted(synced, tape, limit);
    write_summary(&summary, synced.machine().clock(), out)
}
