//! A run whose observer writes no more than there is room for.
ghost use Rattle.std.specs.Prelude.{◌≡◌, ◌≤◌, IfOk, OnOk};
ghost use Rattle.run_windows.specs.SyncedMachine.{loan_of, value_of};
ghost use Rattle.run_windows.specs.Windows.{clock_in, end_of};
ghost use Rattle.lockstep_board.specs.Order.{cleared, records_of};
ghost use Rattle.run_stretch.specs.Kept.{IsKept};

use crate::growing::GrowingSink;
use crate::kept_text::KeptText;
use board_base::CLOCK_LIMIT;
use catchup_engine::{Machine, Stop};
use run_windows::{RecordObserver, SyncedMachine, Until};
use std::alloc::{AllocError, Global};
use tape_ports::Tape;

/// Runs to a clock or to a boundary, as `SyncedMachine::watch` does, and keeps what the observer
/// writes as far as there is room for it. It takes memory for that room and for what is written of
/// one window.
pub(crate) fn watch_within<M: Machine, W: RecordObserver>(
    alloc: Global,
    synced: &mut SyncedMachine<'_, M>,
    tape: &Tape,
    until: Until,
    observer: &mut W,
    room: usize,
) -> Result<KeptText, AllocError>
    requires limit { clock_in until ≤ CLOCK_LIMIT }
    requires room { let last = end_of tape.now.entries until (value_of synced.old).board in
        W.can_take observer.old (value_of synced.old).board.peripherals.clock (records_of last) last.peripherals.clock }
    ensures same { loan_of synced.new ≡ loan_of synced.old }
    ensures kept { let last = end_of tape.now.entries until (value_of synced.old).board in
        IfOk result (λ t. IsKept room (W.writes observer.old (records_of last) last.peripherals.clock) t) }
    ensures board { OnOk result ((value_of synced.new).board ≡ cleared (end_of tape.now.entries until (value_of synced.old).board)) }
{
    let mut kept = KeptText::new(alloc, room)?;
    let mut lines = GrowingSink::new(alloc);
    'windows: loop {
        lines.clear();
        let Ok(stop) = synced.window(tape, until, observer, &mut lines) else {
            return Err(AllocError);
        };
        kept.take(lines.bytes())?;
        match stop {
            Stop::Window => {}
            _ => return Ok(kept),
        }
    }
}
