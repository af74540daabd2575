ghost use Rattle.std.specs.Prelude.{◌≡◌, ◌≤◌};

use crate::board::{BoardTally, run_windows};
use crate::picture::draw;
use crate::processor::count;
use crate::shifts::{Form, Registers};
use crate::sound::play;
use crate::tally::Tally;
use crate::work::Work;
use avg_device::VectorUnit;
use board_base::{CLOCK_LIMIT, CpuState, OutOfMemory, VectorMemory};
use catchup_engine::Machine;
use pokey_chip::SoundUnit;
use run_windows::SyncedMachine;
use std::alloc::Global;
use std::io;
use std::time::{CpuClock, Duration};
use tape_ports::Tape;

/// Why there is no measure.
#[derive(Debug, Drop)]
pub enum Fault {
    /// The words are malformed.
    Usage,
    /// No memory.
    OutOfMemory,
    /// A write failed.
    Io(io::Error),
}

impl From<OutOfMemory> for Fault {
    ghost use Rattle.std.specs.Prelude.{◌≡◌};
    ghost use Rattle.device_bench.specs.declared.measure.Fault.TheVariants.{OutOfMemory};

    ghost from_gives = { λ _ fault. fault ≡ OutOfMemory };

    fn from(_: OutOfMemory) -> Fault {
        Fault::OutOfMemory
    }
}

impl From<io::Error> for Fault {
    ghost use Rattle.std.specs.Prelude.{◌≡◌};
    ghost use Rattle.device_bench.specs.declared.measure.Fault.TheVariants.{Io};

    ghost from_gives = { λ error fault. fault ≡ Io error };

    fn from(error: io::Error) -> Fault {
        Fault::Io(error)
    }
}

/// What came of some work, and the nanoseconds of processor time that it took.
#[derive(Clone, Copy, Debug)]
pub struct Timed<T> {
    pub outcome: T,
    pub nanos: u64,
}

/// The nanoseconds of processor time that this thread has had since `start`.
fn nanos_since<C: CpuClock>(clock: &C, start: Duration) -> io::Result<u64> {
    let spent = clock.thread_cpu_time()?.saturating_sub(start);
    Ok(u64::try_from(spent.as_nanos()).unwrap_or(u64::MAX))
}

/// Times a generator that draws for so many clocks.
pub fn timed_drawing<C: CpuClock, V: VectorUnit>(
    clock: &C,
    alloc: Global,
    mut unit: V,
    memory: &VectorMemory,
    work: Work,
) -> Result<Timed<Tally>, Fault> {
    let start = clock.thread_cpu_time()?;
    let outcome = draw(alloc, &mut unit, memory, work)?;
    let nanos = nanos_since(clock, start)?;
    Ok(Timed { outcome, nanos })
}

/// Times a POKEY that plays for so many clocks.
pub fn timed_playing<C: CpuClock, S: SoundUnit>(
    clock: &C,
    alloc: Global,
    mut unit: S,
    work: Work,
) -> Result<Timed<Tally>, Fault> {
    let start = clock.thread_cpu_time()?;
    let outcome = play(alloc, &mut unit, work)?;
    let nanos = nanos_since(clock, start)?;
    Ok(Timed { outcome, nanos })
}

/// Times the four polynomial registers alone, moved so many times in a form.
pub fn timed_shifts<C: CpuClock>(
    clock: &C,
    form: Form,
    clocks: u64,
) -> Result<Timed<Registers>, Fault> {
    let start = clock.thread_cpu_time()?;
    let outcome = form.shifts(clocks);
    let nanos = nanos_since(clock, start)?;
    Ok(Timed { outcome, nanos })
}

/// Times a bare processor for so many rounds of its program.
pub fn timed_counting<C: CpuClock>(
    clock: &C,
    alloc: Global,
    rounds: u64,
) -> Result<Timed<CpuState>, Fault>
    requires { rounds ≤ CLOCK_LIMIT }
{
    let start = clock.thread_cpu_time()?;
    let outcome = count(alloc, rounds)?;
    let nanos = nanos_since(clock, start)?;
    Ok(Timed { outcome, nanos })
}

/// Times a machine that runs to a limit, window by window.
pub fn timed_running<T: CpuClock, M: Machine>(
    clock: &T,
    synced: &mut SyncedMachine<'_, M>,
    tape: &Tape,
    limit: u64,
) -> Result<Timed<BoardTally>, Fault>
    requires limit { limit ≤ CLOCK_LIMIT }
{
    let start = clock.thread_cpu_time()?;
    let outcome = run_windows(synced, tape, limit);
    let nanos = nanos_since(clock, start)?;
    Ok(Timed { outcome, nanos })
}
