ghost use Rattle.std.specs.Prelude.{◌≡◌, ◌+◌, ◌≤◌, OnOk, OnErr, length};
ghost use Rattle.outside_io.specs.Causes.{HasCause};
ghost use Rattle.outside_io.specs.Sink.{Takes};
ghost use Rattle.catchup_engine.specs.EngineValue.{counted_on};
ghost use Rattle.lockstep_board.specs.Order.{HasNoRecords, cleared};
ghost use Rattle.lockstep_board.specs.Run.{boundary_steps, clock_steps, to_clock, to_boundary};
ghost use Rattle.run_windows.specs.SyncedMachine.{loan_of, value_of};
ghost use Rattle.outside_io.specs.Events.{Did, DidFirst};
ghost use Rattle.outside_io.specs.Hosts.{seen};
ghost use Rattle.outside_io.specs.Seen.{HostDid, HostDidFirst};
ghost use Rattle.run_windows.specs.Windows.{clock_in, end_of, price_to, window_price};
ghost use Rattle.run_log.specs.Slice.{slice_text};
ghost use Rattle.run_log.specs.Slices.{WithinBudget, StopsIn, cost_line, cut_events, ending_text, last_board, last_events, run_events, wanted_in, wanted_of};
ghost use Rattle.run_log.specs.Faults.{KeepsHost, SliceFaults};

use crate::board_bytes::{Saved, load_saved};
use crate::log_writer::LogWriter;
use crate::outside_fault::OutsideFault;
use avg_device::VectorUnit;
use board_base::CLOCK_LIMIT;
use catchup_engine::{Engine, Machine};
use earom_cells::CellUnit;
use irq_watchdog::DividerUnit;
use log_text::{write_cost, write_last};
use outside_io::{Host, Shelf, Sink, SinkFault, store_under};
use pokey_chip::SoundUnit;
use run_windows::{SyncedMachine, Until};
use tape_ports::Tape;

/// What a run is asked to store and to write besides its log.
#[derive(Clone, Copy)]
struct Wanted<'a> {
    /// The name of its boards.
    save: Option<&'a str>,
    /// The name of the cells of the EAROM.
    earom: Option<&'a str>,
    /// Whether its device calls are written.
    cost: bool,
}

/// Runs the board to the end of a slice, and writes its lines. It takes no memory.
fn run_slice<M: Machine, O: Sink>(
    synced: &mut SyncedMachine<'_, M>,
    tape: &Tape,
    until: Until,
    out: &mut O,
) -> Result<(), SinkFault>
    requires limit { clock_in until ≤ CLOCK_LIMIT }
    ensures same { loan_of synced.new ≡ loan_of synced.old }
    ensures taken { Takes (O.taken out.old) (O.taken out.new) (slice_text tape.now.entries until (value_of synced.old).board) result }
    ensures cause { HasCause (O.faults out.old) (O.faults out.new) result }
    ensures board { OnOk result ((value_of synced.new).board ≡ cleared (end_of tape.now.entries until (value_of synced.old).board)) }
    ensures calls { (value_of synced.new).calls ≤ (value_of synced.old).calls + price_to tape.now.entries until (value_of synced.old).board + 5 }
    ensures more { (value_of synced.old).calls ≤ (value_of synced.new).calls }
{
    synced.watch(tape, until, &mut LogWriter, out)?;
    Ok(())
}

/// Runs to a cut, writes its lines, stores its board under a name where one is given, and goes on
/// from the board that is read back. `saved` had the board of the cut before.
fn cut_slice<M: Machine, S: Shelf, O: Sink>(
    synced: &mut SyncedMachine<'_, M>,
    tape: &Tape,
    cut: u64,
    wanted: Wanted<'_>,
    saved: &mut Saved,
    host: &mut Host<'_, S, O>,
) -> Result<(), OutsideFault>
    requires limit { cut ≤ CLOCK_LIMIT }
    ensures same { loan_of synced.new ≡ loan_of synced.old }
    ensures done { OnOk result (HostDid (cut_events tape.now.entries cut (wanted_in wanted.entry).save (value_of synced.old).board)
        (seen host.old) (seen host.new)) }
    ensures stopped { OnErr result (HostDidFirst (cut_events tape.now.entries cut (wanted_in wanted.entry).save (value_of synced.old).board)
        (seen host.old) (seen host.new)) }
    ensures keeps { KeepsHost (seen host.old) (seen host.new) result }
    ensures board { OnOk result ((value_of synced.new).board ≡ cleared (to_clock tape.now.entries cut (value_of synced.old).board)) }
    ensures most { OnOk result ((value_of synced.new).calls ≤ (value_of synced.old).calls
        + window_price tape.now.entries (clock_steps tape.now.entries cut (value_of synced.old).board) (value_of synced.old).board + 10) }
    ensures least { OnOk result (counted_on (value_of synced.old).calls 5 ≤ (value_of synced.new).calls) }
{
    run_slice(synced, tape, Until::Clock(cut), host.out)?;
    saved.save(synced);
    store_under(wanted.save, &saved.bytes, host.shelf)?;
    load_saved(synced, &saved.bytes);
    Ok(())
}

/// Writes the device calls of a run, where they are asked for.
fn write_calls<O: Sink>(cost: bool, calls: u64, out: &mut O) -> Result<(), SinkFault>
    ensures taken { Takes (O.taken out.old) (O.taken out.new) (cost_line cost calls) result }
    ensures cause { HasCause (O.faults out.old) (O.faults out.new) result }
{
    if !cost {
        return Ok(());
    }
    write_cost(calls, out)
}

/// Writes the last line of a run that has ended, and then its device calls where they are asked
/// for.
fn write_ending<M: Machine, O: Sink>(
    synced: &SyncedMachine<'_, M>,
    wanted: Wanted<'_>,
    out: &mut O,
) -> Result<(), SinkFault>
    ensures taken { Takes (O.taken out.old) (O.taken out.new) (ending_text (wanted_in wanted.entry) (value_of synced.now).calls (value_of synced.now).board) result }
    ensures cause { HasCause (O.faults out.old) (O.faults out.new) result }
{
    let machine = synced.machine();
    let cpu = machine.cpu();
    write_last(machine.clock(), cpu.pc, cpu.jam, out)?;
    write_calls(wanted.cost, machine.calls(), out)
}

/// The cells of the EAROM.
fn cells_of<M: Machine>(synced: &SyncedMachine<'_, M>) -> [u8; 64]
    ensures { result ≡ (value_of synced.now).board.peripherals.earom.cells }
{
    synced.machine().earom_cells()
}

/// Runs to the end, writes the lines, the last line and the device calls where they are asked for,
/// and stores the board and then the cells, each where it has a name.
fn end_slice<M: Machine, S: Shelf, O: Sink>(
    synced: &mut SyncedMachine<'_, M>,
    tape: &Tape,
    limit: u64,
    wanted: Wanted<'_>,
    host: &mut Host<'_, S, O>,
) -> Result<(), OutsideFault>
    requires limit { limit ≤ CLOCK_LIMIT }
    ensures same { loan_of synced.new ≡ loan_of synced.old }
    ensures done { OnOk result (HostDid (last_events tape.now.entries limit (wanted_in wanted.entry) (value_of synced.new).calls (value_of synced.old).board)
        (seen host.old) (seen host.new)) }
    ensures stopped { OnErr result (HostDidFirst (last_events tape.now.entries limit (wanted_in wanted.entry) (value_of synced.new).calls (value_of synced.old).board)
        (seen host.old) (seen host.new)) }
    ensures keeps { KeepsHost (seen host.old) (seen host.new) result }
    ensures board { OnOk result ((value_of synced.new).board ≡ cleared (to_boundary tape.now.entries limit (value_of synced.old).board)) }
    ensures calls { (value_of synced.new).calls ≤ (value_of synced.old).calls
        + window_price tape.now.entries (boundary_steps tape.now.entries limit (value_of synced.old).board) (value_of synced.old).board + 5 }
    ensures more { (value_of synced.old).calls ≤ (value_of synced.new).calls }
{
    run_slice(synced, tape, Until::Boundary(limit), host.out)?;
    write_ending(synced, wanted, host.out)?;
    store_under(wanted.save, &Saved::of(synced).bytes, host.shelf)?;
    store_under(wanted.earom, &cells_of(synced), host.shelf)?;
    Ok(())
}

/// Runs the board of a synchronised machine in slices.
fn run_synced<M: Machine, S: Shelf, O: Sink>(
    synced: &mut SyncedMachine<'_, M>,
    tape: &Tape,
    cuts: &[u64],
    limit: u64,
    wanted: Wanted<'_>,
    host: &mut Host<'_, S, O>,
) -> Result<(), OutsideFault>
    requires limit { limit ≤ CLOCK_LIMIT }
    ensures same { loan_of synced.new ≡ loan_of synced.old }
    ensures done { OnOk result (HostDid (run_events tape.now.entries limit (wanted_in wanted.entry) (value_of synced.new).calls cuts.now (value_of synced.old).board)
        (seen host.old) (seen host.new)) }
    ensures stopped { OnErr result (StopsIn tape.now.entries limit (wanted_in wanted.entry) (value_of synced.old).calls cuts.now (value_of synced.old).board
        (seen host.old).taken (seen host.new).taken (seen host.old).stores (seen host.new).stores) }
    ensures keeps { KeepsHost (seen host.old) (seen host.new) result }
    ensures board { OnOk result ((value_of synced.new).board ≡ cleared (last_board tape.now.entries limit cuts.now (value_of synced.old).board)) }
    ensures calls { OnOk result (WithinBudget tape.now.entries limit (length cuts.now) (value_of synced.old).board (value_of synced.old).calls (value_of synced.new).calls) }
{
    let mut saved = Saved::of(synced);
    for cut in cuts {
        cut_slice(synced, tape, (*cut).min(limit), wanted, &mut saved, host)?;
    }
    end_slice(synced, tape, limit, wanted, host)
}

/// Runs the board over a tape, in slices, to the first boundary that isn't before the limit or to
/// an undocumented opcode, and writes its log. At each cut, and at the end, its board is stored
/// under the name `save`, if there is one, and each slice after a cut goes on from the bytes of
/// that board; at the end the 64 cells of the EAROM are stored under the name `earom`. With `cost`
/// the device calls of the engine are written after the last line.
///
/// A cut above the limit falls on the limit, and one below the board's clock where the board
/// stands. After a fault the first part of all this was done, and the engine is only to be dropped.
/// It takes no memory.
pub fn run_slices<V: VectorUnit, P: SoundUnit, C: CellUnit, D: DividerUnit, S: Shelf, O: Sink>(
    engine: &mut Engine<V, P, C, D>,
    tape: &Tape,
    cuts: &[u64],
    limit: u64,
    save: Option<&str>,
    earom: Option<&str>,
    cost: bool,
    shelf: &mut S,
    out: &mut O,
) -> Result<(), OutsideFault>
    requires settled { engine.old.lagging ≡ 0 }
    requires empty { HasNoRecords engine.old.board }
    requires limit { limit ≤ CLOCK_LIMIT }
    ensures done { OnOk result (Did (run_events tape.now.entries limit (wanted_of save.entry earom.entry cost) engine.new.calls cuts.now engine.old.board)
        (O.taken out.old) (O.taken out.new) (S.stores shelf.old) (S.stores shelf.new)) }
    ensures stopped { OnErr result (StopsIn tape.now.entries limit (wanted_of save.entry earom.entry cost) engine.old.calls cuts.now engine.old.board
        (O.taken out.old) (O.taken out.new) (S.stores shelf.old) (S.stores shelf.new)) }
    ensures faults { SliceFaults (S.faults shelf.old) (S.faults shelf.new) (O.faults out.old) (O.faults out.new) result }
    ensures absences { S.absences shelf.old ≤ S.absences shelf.new }
    ensures board { OnOk result (engine.new.board ≡ cleared (last_board tape.now.entries limit cuts.now engine.old.board)) }
    ensures settled { OnOk result (engine.new.lagging ≡ 0) }
    ensures calls { OnOk result (WithinBudget tape.now.entries limit (length cuts.now) engine.old.board engine.old.calls engine.new.calls) }
{
    let mut host = Host::of(shelf, out);
    let mut synced = SyncedMachine::of(engine);
    let wanted = Wanted { save, earom, cost };
    run_synced(&mut synced, tape, cuts, limit, wanted, &mut host)
}
