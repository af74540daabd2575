//! Runs that are reported otherwise than by their log.
ghost use Rattle.std.specs.Prelude.{◌≡◌, ◌≤◌, ℕ, IfOk, List};
ghost use Rattle.board_base.specs.declared.board.TheConstants.{CLOCK_LIMIT};
ghost use Rattle.cpu_core.specs.Places.{IsProcessor};
ghost use Rattle.lockstep_board.specs.Lockstep.{Board};
ghost use Rattle.outside_io.specs.Hosts.{seen};
ghost use Rattle.tape_ports.specs.declared.entry.TapeEntry.{TapeEntry};
ghost use Rattle.gravitar_commands.specs.Outcome.{first_board};
ghost use Rattle.gravitar_commands.specs.Stages.{Keeps, Reports, StageFaults, Wrote, written_as};
ghost use Rattle.run_windows.specs.SyncedMachine.{value_of};
ghost use Rattle.gravitar_commands.specs.RunReport.{CanReport, report_text};

use crate::failure::{Ending, Failure};
use crate::load::load_run;
use crate::parts::Parts;
use crate::program::{has_timers, limit_by};
use catchup_engine::{Devices, Engine, Machine};
use command_line::{PER_LIMIT, RunWords};
use cycle_profile::Profile;
use outside_io::{Host, Shelf, Sink, SinkFault};
use run_samples::run_sampled;
use run_trace::{run_framed, run_profiled};
use run_windows::SyncedMachine;
use sound_pcm::MAX_PER;
use std::alloc::Global;
use tape_ports::Tape;

/// What reports a run in place of its log.
pub trait Report {
    /// The bytes that report a run from a board to a limit.
    ghost text: { Self → List TapeEntry → ℕ → Board → List ℕ };

    /// It may be asked for.
    ghost can_report: { Self → Type 0 };

    /// Takes the memory of a run, and then reports it.
    fn report<O: Sink>(
        &self,
        alloc: Global,
        wired: bool,
        limit: u64,
        parts: &Parts,
        out: &mut O,
    ) -> Result<Ending, Failure>
        requires place { IsProcessor parts.now.board.cpu }
        requires limit { limit ≤ CLOCK_LIMIT }
        requires in_range { can_report self.now }
        ensures taken { Wrote (O.taken out.old) (O.taken out.new)
            (text self.now parts.now.tape.entries limit (first_board wired parts.now)) result }
        ensures faults { StageFaults (O.faults out.old) (O.faults out.new) result };
}

/// Runs an image with a tape, and reports the run. Nothing is stored, and a board that jams ends it
/// as any other end does. All memory is taken before the first clock.
#[inline(never)]
pub fn perform_report<R: Report, S: Shelf, O: Sink>(
    alloc: Global,
    run: &RunWords<'_>,
    report: &R,
    host: &mut Host<'_, S, O>,
) -> Result<Ending, Failure>
    requires in_range { R.can_report report.now }
    ensures outcome { Reports run.now (R.text report.now) (seen host.old) (seen host.new) result }
    ensures done { IfOk result (λ ending. ending ≡ Ending.Done) }
    ensures keeps { Keeps (seen host.old) (seen host.new) result }
{
    let parts = load_run(alloc, run, host.shelf)?;
    let limit = limit_by(&run.settings, parts.tape.end());
    let wired = has_timers(&run.settings);
    report.report(alloc, wired, limit, &parts, host.out)
}

/// What is reported of a run.
#[derive(Clone, Copy, Debug, PartialEq, Eq)]
pub enum RunReport {
    /// Its samples, each of so many clocks.
    Samples(u32),
    /// Its strokes, by the writes that start the generator.
    Frames,
    /// Its clocks, by routine.
    Profile,
}

/// The most clocks of a sample are the same on the command line and in a mixer.
pub fn sample_numbers()
    ensures longest { PER_LIMIT ≡ MAX_PER }
{}

/// What becomes of a command whose text went out, or didn't.
pub(crate) fn written(took: Result<(), SinkFault>) -> Result<Ending, Failure>
    ensures { result ≡ written_as took }
{
    match took {
        Ok(()) => Ok(Ending::Done),
        Err(_) => Err(Failure::Outside),
    }
}

/// Runs the board of a machine, and reports it. A profile takes its memory first.
fn write_report<M: Machine, O: Sink>(
    alloc: Global,
    synced: &mut SyncedMachine<'_, M>,
    tape: &Tape,
    limit: u64,
    report: RunReport,
    out: &mut O,
) -> Result<Ending, Failure>
    requires limit { limit ≤ CLOCK_LIMIT }
    requires in_range { CanReport report }
    ensures taken { Wrote (O.taken out.old) (O.taken out.new) (report_text report tape.now.entries limit (value_of synced.old).board) result }
    ensures faults { StageFaults (O.faults out.old) (O.faults out.new) result }
{
    match report {
        RunReport::Samples(per) => written(run_sampled(synced, tape, limit, per, out)),
        RunReport::Frames => written(run_framed(synced, tape, limit, out)),
        RunReport::Profile => {
            let profile = Profile::new(alloc, synced.machine().cpu().pc)?;
            written(run_profiled(synced, tape, limit, profile, out))
        }
    }
}

impl Report for RunReport {
    ghost text = { report_text };

    ghost can_report = { CanReport };

    fn report<O: Sink>(
        &self,
        alloc: Global,
        wired: bool,
        limit: u64,
        parts: &Parts,
        out: &mut O,
    ) -> Result<Ending, Failure> {
        let mut engine = Engine::new(alloc, &parts.image, &parts.board, Devices::fast(), wired)?;
        let mut synced = SyncedMachine::of(&mut engine);
        write_report(alloc, &mut synced, &parts.tape, limit, *self, out)
    }
}
