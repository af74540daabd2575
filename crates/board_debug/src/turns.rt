//! The turns of a session.
ghost use Rattle.std.specs.Prelude.{◌≡◌};
ghost use Rattle.run_windows.specs.SyncedMachine.{loan_of, value_of};
ghost use Rattle.board_debug.specs.Session.{go_from, step_from, until_from};

use crate::looks::{Before, look_after, look_at_last, look_before, look_until};
use crate::stop_reason::StopReason;
use catchup_engine::Machine;
use debug_script::Breakpoints;
use run_windows::SyncedMachine;
use tape_ports::Tape;

/// Makes so many turns.
pub fn step<M: Machine>(synced: &mut SyncedMachine<'_, M>, tape: &Tape, count: u64) -> StopReason
    ensures same { loan_of synced.new ≡ loan_of synced.old }
    ensures reached { record { found = result; board = (value_of synced.new).board } ≡ step_from tape.now count (value_of synced.old).board }
{
    for _ in 0..count {
        if let Some(found) = look_before(synced, tape.end()) {
            return found;
        }
        synced.turn(tape);
    }
    look_at_last(synced)
}

/// Makes the turns up to a clock.
pub fn until<M: Machine>(synced: &mut SyncedMachine<'_, M>, tape: &Tape, clock: u64) -> StopReason
    ensures same { loan_of synced.new ≡ loan_of synced.old }
    ensures reached { record { found = result; board = (value_of synced.new).board } ≡ until_from tape.now clock (value_of synced.old).board }
{
    'windows: loop {
        if let Some(found) = look_until(synced, tape.end(), clock) {
            return found;
        }
        synced.turns(tape, clock.min(tape.end()));
    }
}

/// Makes turns up to a stop.
pub fn go<M: Machine>(
    synced: &mut SyncedMachine<'_, M>,
    tape: &Tape,
    stops: &Breakpoints,
) -> StopReason
    ensures same { loan_of synced.new ≡ loan_of synced.old }
    ensures reached { record { found = result; board = (value_of synced.new).board } ≡ go_from tape.now stops.now (value_of synced.old).board }
{
    let end = tape.end();
    if let Some(found) = look_before(synced, end) {
        return found;
    }
    'windows: loop {
        let before = Before::of(synced, stops);
        synced.turns_to_stop(tape, end, &before.conditions(stops));
        if let Some(found) = look_after(synced, end, stops, &before) {
            return found;
        }
    }
}
