//! The texts of boards of a run, each at a clock that is asked for.
ghost use Rattle.std.specs.Prelude.{◌≡◌, ℕ, ◌+◌, ◌-◌, ◌≤◌, All, length};
ghost use Rattle.outside_io.specs.Causes.{HasCause};
ghost use Rattle.outside_io.specs.Sink.{Takes};
ghost use Rattle.lockstep_board.specs.Order.{HasNoRecords};
ghost use Rattle.run_windows.specs.SyncedMachine.{loan_of, value_of};
ghost use Rattle.keyframes.specs.Seeking.{Along, run_start};
ghost use Rattle.board_debug.specs.BoardsText.{boards_text};
ghost use Rattle.board_debug.specs.OneRun.{HasRoom, IsNextOf, IsReached, lesser};

use crate::board_text::write_board;
use avg_device::VectorUnit;
use board_base::{BoardState, CLOCK_LIMIT};
use catchup_engine::{Engine, Machine};
use earom_cells::CellUnit;
use irq_watchdog::DividerUnit;
use keyframes::{Keyframes, go_to, keep_board};
use outside_io::{Sink, SinkFault};
use pokey_chip::SoundUnit;
use run_windows::SyncedMachine;
use tape_ports::Tape;

/// The lesser of a clock, where it is above the last one, and of one that was found before.
fn lesser(last: u64, found: Option<u64>, clock: u64) -> Option<u64>
    ensures { result ≡ lesser last found clock }
{
    match found {
        None if last < clock => Some(clock),
        Some(found) if last < clock && clock < found => Some(clock),
        _ => found,
    }
}

/// The least of some clocks above one; none where there is none.
fn next_above(clocks: &[u64], last: u64) -> Option<u64>
    ensures { IsNextOf clocks.now (length clocks.now) last result }
{
    let mut next = None;
    for clock in clocks {
        next = lesser(last, next, *clock);
    }
    next
}

/// Keeps the boards of a run at some clocks, from the least to the greatest.
fn keep_each<M: Machine>(
    synced: &mut SyncedMachine<'_, M>,
    keys: &mut Keyframes,
    tape: &Tape,
    clocks: &[u64],
)
    requires along { Along keys.old.kept tape.now.entries (run_start keys.old.kept (value_of synced.old).board) }
    requires limit { All (λ clock. clock ≤ CLOCK_LIMIT) clocks.now }
    ensures loan { loan_of synced.new ≡ loan_of synced.old }
    ensures same { run_start keys.new.kept (value_of synced.new).board ≡ run_start keys.old.kept (value_of synced.old).board }
    ensures along { Along keys.new.kept tape.now.entries (run_start keys.new.kept (value_of synced.new).board) }
    ensures done { HasRoom keys.old (length clocks.now) → (most : ℕ) → All (λ clock. clock ≤ most) clocks.now
        → (value_of synced.new).done ≤ (value_of synced.old).done + (most - (run_start keys.old.kept (value_of synced.old).board).peripherals.clock) }
    ensures reached { HasRoom keys.old (length clocks.now)
        → All (λ clock. let b = run_start keys.old.kept (value_of synced.old).board in b.peripherals.clock ≤ clock → IsReached tape.now.entries b keys.new.kept clock) clocks.now }
{
    let mut last = keys.clock_of(0);
    while let Some(next) = next_above(clocks, last) {
        go_to(synced, keys, tape, next);
        keep_board(synced, keys);
        last = next;
    }
}

/// Keeps the boards of a run at some clocks, and writes their texts in the order of the clocks.
fn write_each<M: Machine, O: Sink>(
    synced: &mut SyncedMachine<'_, M>,
    keys: &mut Keyframes,
    tape: &Tape,
    clocks: &[u64],
    out: &mut O,
) -> Result<(), SinkFault>
    requires along { Along keys.old.kept tape.now.entries (run_start keys.old.kept (value_of synced.old).board) }
    requires limit { All (λ clock. clock ≤ CLOCK_LIMIT) clocks.now }
    ensures taken { Takes (O.taken out.old) (O.taken out.new) (boards_text tape.now.entries clocks.now (run_start keys.old.kept (value_of synced.old).board)) result }
    ensures cause { HasCause (O.faults out.old) (O.faults out.new) result }
    ensures loan { loan_of synced.new ≡ loan_of synced.old }
    ensures same { run_start keys.new.kept (value_of synced.new).board ≡ run_start keys.old.kept (value_of synced.old).board }
    ensures along { Along keys.new.kept tape.now.entries (run_start keys.new.kept (value_of synced.new).board) }
    // where there is room for all of them, no more clocks than from the start to the last, in
    // whatever order they are asked for
    ensures done { HasRoom keys.old (length clocks.now) → (most : ℕ) → All (λ clock. clock ≤ most) clocks.now
        → (value_of synced.new).done ≤ (value_of synced.old).done + (most - (run_start keys.old.kept (value_of synced.old).board).peripherals.clock) }
{
    keep_each(synced, keys, tape, clocks);
    let mut state = BoardState::power_on();
    for clock in clocks {
        go_to(synced, keys, tape, *clock);
        synced.machine().state(&mut state);
        write_board(&state, out)?;
    }
    Ok(())
}

/// Writes the texts of the boards of a run at some clocks, in the order in which they are asked
/// for.
///
/// The run begins at the first kept board, and below its clock that board is shown. The boards are
/// first kept from the least clock to the greatest, in one run, and then written in the asked
/// order. Where there is no room for all of them, a board is run to from the last kept one at or
/// below its clock. It takes no memory. After a fault of `out` a first part of the text was taken.
pub fn write_boards<V: VectorUnit, P: SoundUnit, C: CellUnit, D: DividerUnit, O: Sink>(
    engine: &mut Engine<V, P, C, D>,
    keys: &mut Keyframes,
    tape: &Tape,
    clocks: &[u64],
    out: &mut O,
) -> Result<(), SinkFault>
    requires settled { engine.old.lagging ≡ 0 }
    requires empty { HasNoRecords engine.old.board }
    requires along { Along keys.old.kept tape.now.entries (run_start keys.old.kept engine.old.board) }
    requires limit { All (λ clock. clock ≤ CLOCK_LIMIT) clocks.now }
    ensures taken { Takes (O.taken out.old) (O.taken out.new) (boards_text tape.now.entries clocks.now (run_start keys.old.kept engine.old.board)) result }
    ensures cause { HasCause (O.faults out.old) (O.faults out.new) result }
    ensures settled { engine.new.lagging ≡ 0 }
    ensures empty { HasNoRecords engine.new.board }
    ensures same { run_start keys.new.kept engine.new.board ≡ run_start keys.old.kept engine.old.board }
    ensures along { Along keys.new.kept tape.now.entries (run_start keys.new.kept engine.new.board) }
    // where there is room for all of them, no more clocks than from the start to the last, in
    // whatever order they are asked for
    ensures done { HasRoom keys.old (length clocks.now) → (most : ℕ) → All (λ clock. clock ≤ most) clocks.now
        → engine.new.done ≤ engine.old.done + (most - (run_start keys.old.kept engine.old.board).peripherals.clock) }
{
    write_each(&mut SyncedMachine::of(engine), keys, tape, clocks, out)
}
