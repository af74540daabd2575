ghost use Rattle.std.specs.Prelude.{◌≡◌, ◌≢◌, ◌≤◌, ◌<◌, ◌↔◌, ◌⊎◌, [], ◌∷◌, IfOk, Contains, None, Some, Ok};
ghost use Rattle.command_line.specs.CommandLine.{command_of};
ghost use Rattle.command_line.specs.CommandValue.{run_of, show_of};
ghost use Rattle.command_line.specs.CommandWords.{command_value};
ghost use Rattle.cpu_core.specs.Places.{IsProcessor};
ghost use Rattle.outside_io.specs.Causes.{Rose};
ghost use Rattle.outside_io.specs.Events.{Did, DidFirst};
ghost use Rattle.outside_io.specs.Hosts.{seen};
ghost use Rattle.gravitar_commands.specs.Endings.{ending_by};
ghost use Rattle.gravitar_commands.specs.Outcome.{Comes, IsRun, usage_text, outside_text, memory_text, limit_of};
ghost use Rattle.gravitar_commands.specs.Stages.{Keeps, Noted, Performs, RunEnds};

use crate::answer::{ending_status, note, status};
use crate::assembling::perform_asm;
use crate::debugging::perform_debug;
use crate::failure::{Ending, Failure};
use crate::load::{load_run, load_state};
use crate::parts::Parts;
use crate::reporting::{RunReport, perform_report};
use crate::seeking::Boards;
use crate::soaking::perform_soak;
use crate::words::Words;
use board_base::CpuState;
use board_debug::write_board;
use catchup_engine::{Devices, Engine};
use command_line::{Command, RunWords, Settings};
use outside_io::{Host, Shelf, Sink};
use run_log::run_slices;
use std::alloc::Global;

/// The note on malformed words.
pub const USAGE: &[u8] =
    b"gravitar: usage: run IMAGE TAPE, asm CPUSRC VGSRC OUT, debug IMAGE TAPE SCRIPT, show STATE, soak SEED, pcm IMAGE TAPE N, frames IMAGE TAPE, seek IMAGE TAPE N,N,.., profile IMAGE TAPE\n";

/// How a run has ended.
fn ending(cpu: &CpuState) -> Ending
    ensures { result ≡ ending_by cpu.now.jam }
{
    match cpu.jam {
        Some(_) => Ending::Jammed,
        None => Ending::Done,
    }
}

/// Takes the memory of a run, and then runs it.
fn run_parts<S: Shelf, O: Sink>(
    alloc: Global,
    settings: &Settings<'_>,
    parts: &Parts,
    host: &mut Host<'_, S, O>,
) -> Result<Ending, Failure>
    requires place { IsProcessor parts.now.board.cpu }
    ensures outcome { RunEnds settings.now parts.now (seen host.old) (seen host.new) result }
    ensures keeps { Keeps (seen host.old) (seen host.new) result }
{
    let limit = run_limit(settings.until, parts.tape.end());
    let mut engine = Engine::new(
        alloc,
        &parts.image,
        &parts.board,
        Devices::fast(),
        settings.timers,
    )?;
    match run_slices(
        &mut engine,
        &parts.tape,
        settings.cuts.as_slice(),
        limit,
        settings.save,
        settings.earom,
        settings.cost,
        host.shelf,
        host.out,
    ) {
        Ok(()) => Ok(ending(engine.cpu())),
        Err(_) => Err(Failure::Outside),
    }
}

/// Runs an image with a tape.
#[inline(never)]
fn perform_run<S: Shelf, O: Sink>(
    alloc: Global,
    words: &RunWords<'_>,
    host: &mut Host<'_, S, O>,
) -> Result<Ending, Failure>
    ensures outcome { Performs (run_of words.now) (seen host.old) (seen host.new) result }
    ensures keeps { Keeps (seen host.old) (seen host.new) result }
{
    let parts = load_run(alloc, words, host.shelf)?;
    run_parts(alloc, &words.settings, &parts, host)
}

/// Writes the text of a saved board.
#[inline(never)]
fn perform_show<S: Shelf, O: Sink>(
    alloc: Global,
    name: &str,
    host: &mut Host<'_, S, O>,
) -> Result<Ending, Failure>
    ensures outcome { Performs (show_of name.now) (seen host.old) (seen host.new) result }
    ensures done { IfOk result (λ ending. ending ≡ Ending.Done) }
    ensures keeps { Keeps (seen host.old) (seen host.new) result }
{
    let board = load_state(alloc, name, host.shelf)?;
    write_board(&board, host.out)?;
    Ok(Ending::Done)
}

/// Does a command. Each is a function of its own, so that the stack holds the board of one alone.
fn perform<S: Shelf, O: Sink>(
    alloc: Global,
    command: &Command<'_>,
    host: &mut Host<'_, S, O>,
) -> Result<Ending, Failure>
    ensures outcome { Performs (command_value command.now) (seen host.old) (seen host.new) result }
    ensures jam { result ≡ Ok Ending.Jammed → IsRun (Some (command_value command.now)) }
    ensures keeps { Keeps (seen host.old) (seen host.new) result }
{
    match command {
        Command::Run(words) => perform_run(alloc, words, host),
        Command::Asm(words) => perform_asm(alloc, words, host),
        Command::Debug(words) => perform_debug(alloc, words, host),
        Command::Show(name) => perform_show(alloc, name, host),
        Command::Soak(seed) => perform_soak(alloc, *seed, host),
        Command::Pcm(words) => {
            perform_report(alloc, &words.run, &RunReport::Samples(words.per), host)
        }
        Command::Frames(words) => perform_report(alloc, words, &RunReport::Frames, host),
        Command::Seek(words) => {
            let clocks = words.clocks.as_slice();
            perform_report(alloc, &words.run, &Boards { clocks }, host)
        }
        Command::Profile(words) => perform_report(alloc, words, &RunReport::Profile, host),
    }
}

/// What the program does for its words, with the text of its notes, and its status.
///
/// 0: done. 2: the words are malformed. 3: the board is jammed at the end. 4: a file is malformed.
/// 5: a file is absent. 6: a fault of the shelf or of the output. 7: out of memory. A run takes its
/// memory before it moves or writes anything. A failed write to the notes doesn't change the
/// status.
pub fn gravitar<S: Shelf, O: Sink, N: Sink>(
    alloc: Global,
    words: &Words,
    shelf: &mut S,
    out: &mut O,
    notes: &mut N,
) -> u8
    // Without a fault and with memory, all is as defined, where the shelf says what its files are
    // or none is read.
    ensures outcome { result ≢ 6 → result ≢ 7 → Comes words.now (S.files shelf.old) (λ outcome.
        (result ≡ outcome.status) × Did outcome.events (O.taken out.old) (O.taken out.new) (S.stores shelf.old) (S.stores shelf.new)) }

    // After 6 a first part of what is defined was done.
    ensures stopped { result ≡ 6 → Comes words.now (S.files shelf.old) (λ outcome.
        DidFirst outcome.events (O.taken out.old) (O.taken out.new) (S.stores shelf.old) (S.stores shelf.new)) }

    // Nothing was written or stored, whether the files are known or not.
    ensures wrote_nothing { Contains (2 ∷ 4 ∷ 5 ∷ 7 ∷ []) result → (O.taken out.new ≡ O.taken out.old) × (S.stores shelf.new ≡ S.stores shelf.old) }

    ensures statuses { Contains (0 ∷ 2 ∷ 3 ∷ 4 ∷ 5 ∷ 6 ∷ 7 ∷ []) result }
    ensures usage { (result ≡ 2) ↔ (command_of words.now ≡ None) }
    ensures jam { result ≡ 3 → IsRun (command_of words.now) }
    ensures absent { result ≡ 5 → Rose (S.absences shelf.old) (S.absences shelf.new) }
    ensures fault { result ≡ 6 → Rose (S.faults shelf.old) (S.faults shelf.new) ⊎ Rose (O.faults out.old) (O.faults out.new) }
    ensures shelf_fault { S.faults shelf.old < S.faults shelf.new → result ≡ 6 }
    ensures out_fault { O.faults out.old < O.faults out.new → result ≡ 6 }
    ensures later { (S.faults shelf.old ≤ S.faults shelf.new) × (O.faults out.old ≤ O.faults out.new) }

    // The note, of which a failed write took a part.
    ensures usage_note { result ≡ 2 → Noted (N.taken notes.old) (N.taken notes.new) (N.faults notes.old) (N.faults notes.new) usage_text }
    ensures fault_note { result ≡ 6 → Noted (N.taken notes.old) (N.taken notes.new) (N.faults notes.old) (N.faults notes.new) outside_text }
    ensures memory_note { result ≡ 7 → Noted (N.taken notes.old) (N.taken notes.new) (N.faults notes.old) (N.faults notes.new) memory_text }
    ensures note { result ≢ 6 → result ≢ 7 → Comes words.now (S.files shelf.old) (λ outcome.
        Noted (N.taken notes.old) (N.taken notes.new) (N.faults notes.old) (N.faults notes.new) outcome.note) }
    ensures no_note { Contains (0 ∷ 3 ∷ []) result → notes.new ≡ notes.old }
{
    let command = words.command();
    let Some(command) = &command else {
        let _ = notes.write(USAGE);
        return 2;
    };
    match perform(alloc, command, &mut Host::of(shelf, out)) {
        Ok(ending) => ending_status(ending),
        Err(failure) => {
            let _ = notes.write(note(&failure));
            status(&failure)
        }
    }
}

/// The clock that a run ends at: the tape's END, or that of `--until` where it is smaller.
pub fn run_limit(until: Option<u64>, end: u64) -> u64
    ensures limit { result ≡ limit_of until end }
    ensures most { result ≤ end }
{
    match until {
        Some(until) => until.min(end),
        None => end,
    }
}

/// The clock that a run with these settings ends at.
pub fn limit_by(settings: &Settings<'_>, end: u64) -> u64
    ensures limit { result ≡ limit_of settings.now.until end }
    ensures most { result ≤ end }
{
    run_limit(settings.until, end)
}

/// Whether the timer requests of the POKEYs reach the interrupt line.
pub fn has_timers(settings: &Settings<'_>) -> bool
    ensures { result ≡ settings.now.timers }
{
    settings.timers
}
