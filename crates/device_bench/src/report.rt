ghost use Rattle.std.specs.Prelude.{◌≤◌};

use crate::asked::Report;
use crate::board::BoardTally;
use crate::measure::{
    Fault, Timed, timed_counting, timed_drawing, timed_playing, timed_running, timed_shifts,
};
use crate::pairs::plain_devices;
use crate::picture::{long_vectors, short_vectors};
use crate::processor::ROUND_CLOCKS;
use crate::programs::Program;
use crate::shifts::Form;
use crate::sound::Tune;
use crate::tally::Tally;
use crate::work::SLICE;
use avg_device::{FastVg, PlainVg, VectorUnit};
use board_base::{BoardState, CLOCK_LIMIT, CpuState, VectorMemory};
use catchup_engine::{Devices, Engine};
use earom_cells::Earom;
use irq_watchdog::Divider;
use pokey_chip::{FastPokey, PlainPokey, SoundUnit};
use rom_image::Image;
use run_windows::SyncedMachine;
use std::alloc::Global;
use std::io;
use std::time::CpuClock;
use tape_ports::Tape;

/// The fixed number of clocks for pictures: 10 of short vectors.
const PICTURE_CLOCKS: u64 = 57_120;

/// The fixed number of clocks for sounds: 3,000 pulses of the base clock, or 3,500 periods of 24.
const SOUND_CLOCKS: u64 = 84_000;

/// The fixed number of clocks for a processor: 50 rounds of its program.
const PROCESSOR_CLOCKS: u64 = 64_100;

/// The fixed number of clocks for boards: 40 periods of the divider and a part of the next. A board
/// that doesn't clear the watchdog is reset five times.
const BOARD_CLOCKS: u64 = 250_000;

/// Prints what came of a device's work.
fn print_work<R: io::Print>(
    rt: &R,
    report: Report,
    name: &str,
    clocks: u64,
    timed: Timed<Tally>,
) -> io::Result<()> {
    match report {
        Report::Sums => {
            let Tally { records, sum } = timed.outcome;
            println!(rt;
                "{name}: {clocks} clocks, {records} records, the sum of their clocks {sum}"
            )
        }
        Report::Times { .. } => speed(rt, name, clocks, timed.nanos),
    }
}

/// Prints how many times as fast the one is as the other, where times are printed.
fn print_ratio<R: io::Print>(
    rt: &R,
    report: Report,
    name: &str,
    fast: u64,
    slow: u64,
) -> io::Result<()> {
    match report {
        Report::Sums => Ok(()),
        Report::Times { .. } => {
            let hundredths = slow.saturating_mul(100) / fast.max(1);
            println!(rt;
                "{name}: {}.{}{} times",
                hundredths / 100,
                hundredths / 10 % 10,
                hundredths % 10
            )
        }
    }
}

/// Prints millions of clocks a second.
fn speed<R: io::Print>(rt: &R, name: &str, clocks: u64, nanos: u64) -> io::Result<()> {
    let tenths = clocks.saturating_mul(10_000) / nanos.max(1);
    println!(rt;
        "{name}: {}.{} million clocks a second",
        tenths / 10,
        tenths % 10
    )
}

/// Compares the two generators over a picture.
fn vectors<R: io::Print + CpuClock>(
    rt: &R,
    alloc: Global,
    report: Report,
    memory: &VectorMemory,
    fixed: u64,
) -> Result<(), Fault>
    requires { fixed ≤ CLOCK_LIMIT }
{
    let work = report.work(fixed, SLICE);
    let plain = timed_drawing(rt, alloc, PlainVg::new(), memory, work)?;
    print_work(rt, report, "PlainVg", work.clocks, plain)?;
    let fast = timed_drawing(rt, alloc, FastVg::new(), memory, work)?;
    print_work(rt, report, "FastVg", work.clocks, fast)?;
    print_ratio(rt, report, "FastVg to PlainVg", fast.nanos, plain.nanos)?;
    Ok(())
}

/// Draws 10 pictures of short vectors, and one of long ones.
pub fn pictures<R: io::Print + CpuClock>(
    rt: &R,
    alloc: Global,
    report: Report,
) -> Result<(), Fault> {
    println!(rt; "300 short vectors")?;
    vectors(rt, alloc, report, &short_vectors(alloc)?, PICTURE_CLOCKS)?;
    println!(rt; "30 long vectors")?;
    vectors(rt, alloc, report, &long_vectors(alloc)?, 123_042)
}

/// Compares a plain and a fast POKEY that play the same, and prints the time of the fast one.
fn pokeys<R: io::Print + CpuClock>(
    rt: &R,
    alloc: Global,
    report: Report,
    tune: Tune,
) -> Result<u64, Fault> {
    println!(rt; "{}", tune.name())?;
    let work = report.work(SOUND_CLOCKS, SLICE);
    let (mut plain, mut fast) = (PlainPokey::new(), FastPokey::new());
    tune.tell(&mut plain);
    tune.tell(&mut fast);
    let plain = timed_playing(rt, alloc, plain, work)?;
    print_work(rt, report, "PlainPokey", work.clocks, plain)?;
    let fast = timed_playing(rt, alloc, fast, work)?;
    print_work(rt, report, "FastPokey", work.clocks, fast)?;
    print_ratio(
        rt,
        report,
        "FastPokey to PlainPokey",
        fast.nanos,
        plain.nanos,
    )?;
    Ok(fast.nanos)
}

/// Shifts the polynomial registers alone, and prints the time.
fn registers<R: io::Print + CpuClock>(rt: &R, report: Report, form: Form) -> Result<u64, Fault> {
    let clocks = report.work(SOUND_CLOCKS, SLICE).clocks;
    let timed = timed_shifts(rt, form, clocks)?;
    let registers = timed.outcome;
    let name = form.name();
    println!(rt;
        "{name} after {clocks} clocks: {} {} {} {}",
        registers.four, registers.five, registers.nine, registers.seventeen
    )?;
    if report != Report::Sums {
        speed(rt, name, clocks, timed.nanos)?;
    }
    Ok(timed.nanos)
}

/// Plays each tune, and shifts the polynomial registers alone.
pub fn sounds<R: io::Print + CpuClock>(rt: &R, alloc: Global, report: Report) -> Result<(), Fault> {
    let four = pokeys(rt, alloc, report, Tune::FourOnTheBaseClock)?;
    let one = pokeys(rt, alloc, report, Tune::OneOnTheChipClock)?;
    pokeys(rt, alloc, report, Tune::ShortestOnTheBaseClock)?;
    pokeys(rt, alloc, report, Tune::ShortestOnTheChipClock)?;
    println!(rt; "the four polynomial registers alone")?;
    let bare = registers(rt, report, Form::Shifts)?;
    registers(rt, report, Form::Leap)?;
    print_ratio(
        rt,
        report,
        "FastPokey with four channels to single shifts",
        four,
        bare,
    )?;
    print_ratio(
        rt,
        report,
        "FastPokey with one channel to single shifts",
        one,
        bare,
    )?;
    Ok(())
}

/// Moves both fast devices by calls of so many clocks.
fn moves_of<R: io::Print + CpuClock>(
    rt: &R,
    alloc: Global,
    report: Report,
    memory: &VectorMemory,
    slice: u64,
) -> Result<(), Fault>
    requires some { 1 ≤ slice }
    requires room { slice ≤ SLICE }
{
    println!(rt; "moves of {slice} clocks")?;
    let work = report.work(PICTURE_CLOCKS, slice);
    let drawn = timed_drawing(rt, alloc, FastVg::new(), memory, work)?;
    print_work(rt, report, "FastVg", work.clocks, drawn)?;
    let work = report.work(SOUND_CLOCKS, slice);
    let mut unit = FastPokey::new();
    Tune::FourOnTheBaseClock.tell(&mut unit);
    let played = timed_playing(rt, alloc, unit, work)?;
    print_work(rt, report, "FastPokey", work.clocks, played)?;
    Ok(())
}

/// Draws short vectors and plays four channels on the base clock, by shorter and longer calls.
pub fn moves<R: io::Print + CpuClock>(rt: &R, alloc: Global, report: Report) -> Result<(), Fault> {
    let memory = short_vectors(alloc)?;
    moves_of(rt, alloc, report, &memory, 4)?;
    moves_of(rt, alloc, report, &memory, 13)?;
    moves_of(rt, alloc, report, &memory, 100)?;
    moves_of(rt, alloc, report, &memory, 6000)
}

/// Runs a bare processor.
pub fn instructions<R: io::Print + CpuClock>(
    rt: &R,
    alloc: Global,
    report: Report,
) -> Result<(), Fault> {
    let rounds = report.work(PROCESSOR_CLOCKS, SLICE).clocks / ROUND_CLOCKS;
    let clocks = rounds * ROUND_CLOCKS;
    let timed = timed_counting(rt, alloc, rounds)?;
    let CpuState { pc, x, .. } = timed.outcome;
    println!(rt; "a processor on a bus without a log: {clocks} clocks, pc {pc}, x {x}")?;
    if report != Report::Sums {
        speed(rt, "processor", clocks, timed.nanos)?;
    }
    Ok(())
}

/// Prints what records a part of a board has made.
fn print_part<R: io::Print>(rt: &R, name: &str, tally: Tally) -> io::Result<()> {
    let Tally { records, sum } = tally;
    println!(rt; "  {name}: {records} records, the sum of their clocks {sum}")
}

/// What a run of a board came to.
#[derive(Clone, Copy)]
struct Ran {
    clock: u64,
    pc: u16,
    timed: Timed<BoardTally>,
}

/// Prints what records a board has made, where sums are printed, and else its speed.
fn print_board<R: io::Print>(rt: &R, report: Report, name: &str, ran: Ran) -> io::Result<()> {
    let Ran { clock, pc, timed } = ran;
    let BoardTally {
        strokes,
        levels1,
        levels2,
        written,
    } = timed.outcome;
    match report {
        Report::Sums => {
            println!(rt; "{name}: {clock} clocks, pc {pc}")?;
            print_part(rt, "strokes", strokes)?;
            print_part(rt, "levels of POKEY 1", levels1)?;
            print_part(rt, "levels of POKEY 2", levels2)?;
            print_part(rt, "latches and resets", written)
        }
        Report::Times { .. } => speed(rt, name, clock, timed.nanos),
    }
}

/// Runs a board from power-on.
fn run_board<R: CpuClock, V: VectorUnit, P: SoundUnit>(
    rt: &R,
    alloc: Global,
    image: &Image,
    devices: Devices<V, P, Earom, Divider>,
    limit: u64,
) -> Result<Ran, Fault>
    requires { limit ≤ CLOCK_LIMIT }
{
    let tape = Tape::new(alloc, &[], limit)?;
    let mut engine = Engine::new(alloc, image, &BoardState::power_on(), devices, true)?;
    let timed = timed_running(rt, &mut SyncedMachine::of(&mut engine), &tape, limit)?;
    Ok(Ran {
        clock: engine.clock(),
        pc: engine.cpu().pc,
        timed,
    })
}

/// Runs a board from power-on, and prints the time.
fn board<R: io::Print + CpuClock, V: VectorUnit, P: SoundUnit>(
    rt: &R,
    alloc: Global,
    report: Report,
    name: &str,
    image: &Image,
    devices: Devices<V, P, Earom, Divider>,
) -> Result<u64, Fault> {
    let limit = report.work(BOARD_CLOCKS, SLICE).clocks;
    let ran = run_board(rt, alloc, image, devices, limit)?;
    print_board(rt, report, name, ran)?;
    Ok(ran.timed.nanos)
}

/// Compares a board of plain devices and one of fast ones that do the same.
fn both_boards<R: io::Print + CpuClock>(
    rt: &R,
    alloc: Global,
    report: Report,
    program: Program,
) -> Result<(), Fault> {
    println!(rt; "{}", program.name())?;
    let image = program.image(alloc)?;
    let plain = board(rt, alloc, report, "plain devices", &image, plain_devices())?;
    let fast = board(rt, alloc, report, "fast devices", &image, Devices::fast())?;
    print_ratio(rt, report, "fast devices to plain devices", fast, plain)?;
    Ok(())
}

/// Runs each program on a board of plain devices and on one of fast ones.
pub fn boards<R: io::Print + CpuClock>(rt: &R, alloc: Global, report: Report) -> Result<(), Fault> {
    both_boards(rt, alloc, report, Program::CountingLoop)?;
    both_boards(rt, alloc, report, Program::Soak)?;
    both_boards(rt, alloc, report, Program::RamLoop)
}
