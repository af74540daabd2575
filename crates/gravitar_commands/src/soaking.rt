ghost use Rattle.std.specs.Prelude.{◌≡◌, IfOk};
ghost use Rattle.command_line.specs.CommandValue.{soak_of};
ghost use Rattle.outside_io.specs.Hosts.{seen};
ghost use Rattle.gravitar_commands.specs.Stages.{Keeps, Performs};

use crate::failure::{Ending, Failure};
use board_base::BoardState;
use catchup_engine::{Devices, Engine};
use outside_io::{Host, Shelf, Sink};
use run_summary::run_soak;
use run_windows::SyncedMachine;
use std::alloc::Global;
use workload_gen::make;

/// Makes the workload of a number, runs it to the end of its tape, and writes its summary. All
/// memory is taken before the first clock.
#[inline(never)]
pub fn perform_soak<S: Shelf, O: Sink>(
    alloc: Global,
    seed: u64,
    host: &mut Host<'_, S, O>,
) -> Result<Ending, Failure>
    ensures outcome { Performs (soak_of seed) (seen host.old) (seen host.new) result }
    ensures done { IfOk result (λ ending. ending ≡ Ending.Done) }
    ensures keeps { Keeps (seen host.old) (seen host.new) result }
{
    let (image, tape) = make(alloc, seed)?;
    let board = BoardState::power_on();
    let mut engine = Engine::new(alloc, &image, &board, Devices::fast(), false)?;
    match run_soak(
        &mut SyncedMachine::of(&mut engine),
        &tape,
        tape.end(),
        host.out,
    ) {
        Ok(()) => Ok(Ending::Done),
        Err(_) => Err(Failure::Outside),
    }
}
