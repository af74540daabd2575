ghost use Rattle.std.specs.Prelude.{◌≡◌, ◌≤◌, length};
ghost use Rattle.lockstep_board.specs.Order.{HasNoRecords};
ghost use Rattle.debug_script.specs.declared.script.TheConstants.{SCRIPT_LIMIT};
ghost use Rattle.board_debug.specs.Debugged.{Debugs};

use crate::fault::DebugFault;
use crate::session::run_commands;
use avg_device::VectorUnit;
use catchup_engine::Engine;
use debug_script::{ScriptFault, read_script};
use earom_cells::CellUnit;
use irq_watchdog::DividerUnit;
use outside_io::Sink;
use pokey_chip::SoundUnit;
use run_windows::SyncedMachine;
use std::alloc::Global;
use tape_ports::Tape;

/// Runs a script over an engine and its tape, and writes what its commands print.
///
/// The whole script is read before anything is run. After a fault of `out` the engine is only to be
/// dropped.
pub fn run_script<V: VectorUnit, P: SoundUnit, C: CellUnit, D: DividerUnit, O: Sink>(
    alloc: Global,
    engine: &mut Engine<V, P, C, D>,
    tape: &Tape,
    script: &[u8],
    out: &mut O,
) -> Result<(), DebugFault>
    requires length { length script.now ≤ SCRIPT_LIMIT }
    requires settled { engine.old.lagging ≡ 0 }
    requires empty { HasNoRecords engine.old.board }
    ensures { Debugs tape.now script.now engine.old engine.new (O.taken out.old) (O.taken out.new) (O.faults out.old) (O.faults out.new) result }
{
    let commands = match read_script(alloc, script) {
        Ok(commands) => commands,
        Err(ScriptFault::BadCommand(line)) => return Err(DebugFault::BadCommand(line)),
        Err(_) => return Err(DebugFault::OutOfMemory),
    };
    match run_commands(&mut SyncedMachine::of(engine), tape, &commands, out) {
        Ok(()) => Ok(()),
        Err(_) => Err(DebugFault::SinkFault),
    }
}
