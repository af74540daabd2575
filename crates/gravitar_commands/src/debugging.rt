ghost use Rattle.std.specs.Prelude.{◌≡◌, ◌≤◌, IfOk, IfSome, length};
ghost use Rattle.command_line.specs.CommandValue.{debug_of};
ghost use Rattle.cpu_core.specs.Places.{IsProcessor};
ghost use Rattle.debug_script.specs.declared.script.TheConstants.{SCRIPT_LIMIT};
ghost use Rattle.outside_io.specs.Hosts.{seen};
ghost use Rattle.gravitar_commands.specs.Stages.{GivesScript, HostEnds, Keeps, Performs, StageAbsences, StageFaults, session_outcome};

use crate::cause::Cause;
use crate::failure::{Ending, Failure};
use crate::load::{bad, fetch, load_run};
use crate::parts::Parts;
use crate::program::has_timers;
use board_debug::{DebugFault, run_script};
use catchup_engine::{Devices, Engine};
use command_line::{DebugWords, RunWords};
use debug_script::{SCRIPT_LIMIT, ScriptFault};
use outside_io::{Host, Shelf, Sink};
use std::alloc::Global;

/// The bytes of a script, which are read as commands when they are run.
#[tactic(auto, unfolding(crate::specs::Outcome::script_file, crate::specs::Outcome::script_read))]
fn load_script<S: Shelf>(alloc: Global, name: &str, shelf: &mut S) -> Result<Vec<u8>, Failure>
    ensures content { IfSome (S.files shelf.old) (λ files. GivesScript (λ bytes. bytes.items) files name.now result) }
    ensures length { IfOk result (λ bytes. length bytes.items ≤ SCRIPT_LIMIT) }
    ensures stores { S.stores shelf.new ≡ S.stores shelf.old }
    ensures faults { StageFaults (S.faults shelf.old) (S.faults shelf.new) result }
    ensures absences { StageAbsences (S.absences shelf.old) (S.absences shelf.new) result }
{
    let bytes = fetch(alloc, name, SCRIPT_LIMIT, shelf)?;
    if bytes.len() > SCRIPT_LIMIT {
        return Err(bad(alloc, name, Cause::Script(ScriptFault::TooLong)));
    }
    Ok(bytes)
}

/// Takes the memory of a session, and then runs its script.
fn run_session<S: Shelf, O: Sink>(
    alloc: Global,
    wired: bool,
    name: &str,
    parts: &Parts,
    script: &[u8],
    host: &mut Host<'_, S, O>,
) -> Result<Ending, Failure>
    requires length { length script.now ≤ SCRIPT_LIMIT }
    requires place { IsProcessor parts.now.board.cpu }
    ensures outcome { HostEnds (session_outcome wired name.now parts.now script.now) (seen host.old) (seen host.new) result }
    ensures done { IfOk result (λ ending. ending ≡ Ending.Done) }
    ensures keeps { Keeps (seen host.old) (seen host.new) result }
{
    let mut engine = Engine::new(alloc, &parts.image, &parts.board, Devices::fast(), wired)?;
    match run_script(alloc, &mut engine, &parts.tape, script, host.out) {
        Ok(()) => Ok(Ending::Done),
        Err(DebugFault::BadCommand(line)) => Err(bad(
            alloc,
            name,
            Cause::Script(ScriptFault::BadCommand(line)),
        )),
        Err(DebugFault::SinkFault) => Err(Failure::Outside),
        Err(DebugFault::OutOfMemory) => Err(Failure::NoMemory),
    }
}

/// Loads the files of a session, and runs its script.
fn debug_run<S: Shelf, O: Sink>(
    alloc: Global,
    run: &RunWords<'_>,
    name: &str,
    host: &mut Host<'_, S, O>,
) -> Result<Ending, Failure>
    ensures outcome { Performs (debug_of (record { run = run.now; script = name.now })) (seen host.old) (seen host.new) result }
    ensures done { IfOk result (λ ending. ending ≡ Ending.Done) }
    ensures keeps { Keeps (seen host.old) (seen host.new) result }
{
    let parts = load_run(alloc, run, host.shelf)?;
    let script = load_script(alloc, name, host.shelf)?;
    let wired = has_timers(&run.settings);
    run_session(alloc, wired, name, &parts, &script, host)
}

/// Debugs an image with a tape by a script.
#[inline(never)]
pub fn perform_debug<S: Shelf, O: Sink>(
    alloc: Global,
    words: &DebugWords<'_>,
    host: &mut Host<'_, S, O>,
) -> Result<Ending, Failure>
    ensures outcome { Performs (debug_of words.now) (seen host.old) (seen host.new) result }
    ensures done { IfOk result (λ ending. ending ≡ Ending.Done) }
    ensures keeps { Keeps (seen host.old) (seen host.new) result }
{
    debug_run(alloc, &words.run, words.script, host)
}
