//! A session: the commands of a script, one after another.
ghost use Rattle.std.specs.Prelude.{◌≡◌, OnOk};
ghost use Rattle.std.specs.Option.{option_map};
ghost use Rattle.outside_io.specs.Causes.{HasCause};
ghost use Rattle.outside_io.specs.Sink.{Takes};
ghost use Rattle.lockstep_board.specs.Peripherals.{board_of};
ghost use Rattle.debug_script.specs.Breakpoints.{Fit, no_stops};
ghost use Rattle.run_windows.specs.SyncedMachine.{loan_of, value_of};
ghost use Rattle.board_debug.specs.Session.{board_after, command_text, reached_by, session_board, session_text, shown_text};

use crate::board_text::{write_devices, write_registers};
use crate::listings::{write_dis, write_mem, write_vdis};
use crate::stop_line::write_stop;
use crate::stop_reason::StopReason;
use crate::turns::{go, step, until};
use board_base::BoardState;
use catchup_engine::Machine;
use debug_script::{Breakpoints, Command};
use outside_io::{Sink, SinkFault};
use run_windows::SyncedMachine;
use tape_ports::Tape;

/// Makes the turns of a command that makes some.
fn make_turns<M: Machine>(
    synced: &mut SyncedMachine<'_, M>,
    tape: &Tape,
    stops: &Breakpoints,
    command: Command,
) -> Option<StopReason>
    ensures same { loan_of synced.new ≡ loan_of synced.old }
    ensures reached { option_map (λ found. record { found = found; board = (value_of synced.new).board }) result ≡ reached_by tape.now stops.now command (value_of synced.old).board }
    ensures board { (value_of synced.new).board ≡ board_after tape.now stops.now command (value_of synced.old).board }
{
    match command {
        Command::Go => Some(go(synced, tape, stops)),
        Command::Step(count) => Some(step(synced, tape, count)),
        Command::Until(clock) => Some(until(synced, tape, clock)),
        _ => None,
    }
}

/// The board that an engine represents.
fn state_of<M: Machine>(synced: &SyncedMachine<'_, M>) -> BoardState
    ensures { result ≡ board_of (value_of synced.now).board.cpu (value_of synced.now).board.peripherals }
{
    let mut state = BoardState::power_on();
    synced.machine().state(&mut state);
    state
}

/// Shows what a command asks for that makes no turn.
fn show<M: Machine, O: Sink>(
    synced: &SyncedMachine<'_, M>,
    command: Command,
    out: &mut O,
) -> Result<(), SinkFault>
    ensures taken { Takes (O.taken out.old) (O.taken out.new) (shown_text command (value_of synced.now).board) result }
    ensures cause { HasCause (O.faults out.old) (O.faults out.new) result }
{
    match command {
        Command::Regs => write_registers(&state_of(synced), out),
        Command::Dev => write_devices(&state_of(synced), out),
        Command::Mem(span) => write_mem(synced.machine(), span, out),
        Command::Dis(span) => write_dis(synced.machine(), span, out),
        Command::Vdis(span) => write_vdis(synced.machine(), span, out),
        _ => Ok(()),
    }
}

/// Does a command, and writes what it prints.
fn perform<M: Machine, O: Sink>(
    synced: &mut SyncedMachine<'_, M>,
    tape: &Tape,
    stops: &Breakpoints,
    command: Command,
    out: &mut O,
) -> Result<(), SinkFault>
    ensures same { loan_of synced.new ≡ loan_of synced.old }
    ensures taken { Takes (O.taken out.old) (O.taken out.new) (command_text tape.now stops.now command (value_of synced.old).board) result }
    ensures cause { HasCause (O.faults out.old) (O.faults out.new) result }
    ensures board { (value_of synced.new).board ≡ board_after tape.now stops.now command (value_of synced.old).board }
{
    match make_turns(synced, tape, stops, command) {
        Some(found) => write_stop(synced.machine(), found, out),
        None => show(synced, command, out),
    }
}

/// Does the commands of a script, one after another.
pub fn run_commands<M: Machine, O: Sink>(
    synced: &mut SyncedMachine<'_, M>,
    tape: &Tape,
    commands: &[Command],
    out: &mut O,
) -> Result<(), SinkFault>
    requires fit { Fit no_stops commands.now }
    ensures same { loan_of synced.new ≡ loan_of synced.old }
    ensures taken { Takes (O.taken out.old) (O.taken out.new) (session_text tape.now no_stops commands.now (value_of synced.old).board) result }
    ensures cause { HasCause (O.faults out.old) (O.faults out.new) result }
    ensures board { OnOk result ((value_of synced.new).board ≡ session_board tape.now no_stops commands.now (value_of synced.old).board) }
{
    let mut stops = Breakpoints::new();
    for command in commands {
        perform(synced, tape, &stops, *command, out)?;
        stops.note(*command);
    }
    Ok(())
}
