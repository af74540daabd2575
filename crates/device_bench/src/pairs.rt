//! Boards of fast devices beside boards of plain ones.
ghost use Rattle.std.specs.Prelude.{◌≡◌, ◌≤◌, IfOk, IfSome};
ghost use Rattle.cpu_core.specs.Places.{IsMiddle};
ghost use Rattle.cpu_table.specs.Opcodes.{row_of};
ghost use Rattle.run_windows.specs.Windows.{clock_in};

use crate::busy::{busy_image, busy_tape};
use crate::measure::Fault;
use crate::plays::PLAYS;
use crate::programs::Draws;
use avg_device::{FastVg, PlainVg};
use board_base::{BoardState, CLOCK_LIMIT};
use catchup_engine::{Devices, Engine};
use earom_cells::Earom;
use irq_watchdog::Divider;
use pokey_chip::{FastPokey, PlainPokey};
use rom_image::Image;
use run_windows::Until;
use std::alloc::Global;
use std::io;
use tape_ports::Tape;

/// How two boards run beside each other.
#[derive(Clone, Copy)]
pub struct Course {
    /// Whether the timer requests are wired.
    pub wired: bool,
    /// The clock at which they begin, in the first window.
    pub start: u64,
    /// The clocks from one look at both to the next.
    pub part: u64,
    /// The clock at which they end.
    pub end: u64,
}

/// The most looks at two boards.
const MOST_LOOKS: u32 = 500;

/// Where busy boards begin, and the clocks from one look at them to the next.
const STARTS: [u64; 8] = [0, 907, 1203, 2417, 3301, 4999, 6142, 6143];

const PARTS: [u64; 4] = [7000, 97, 331, 71];

/// The clocks between two entries of a busy tape are fewer than one of these.
const GAPS: [u16; 4] = [2, 9, 60, 255];

/// The devices that move clock by clock where there are two kinds.
pub fn plain_devices() -> Devices<PlainVg, PlainPokey, Earom, Divider> {
    Devices {
        vector: PlainVg::new(),
        sound1: PlainPokey::new(),
        sound2: PlainPokey::new(),
        cells: Earom::new(),
        divider: Divider::new(),
    }
}

type Fast = Engine<FastVg, FastPokey, Earom, Divider>;

type Plain = Engine<PlainVg, PlainPokey, Earom, Divider>;

/// Whether two engines represent the same board, with the same records.
fn are_alike(fast: &Fast, plain: &Plain) -> bool
    requires fast { fast.now.lagging ≡ 0 }
    requires plain { plain.now.lagging ≡ 0 }
{
    let (mut found, mut wanted) = (BoardState::power_on(), BoardState::power_on());
    fast.state(&mut found);
    plain.state(&mut wanted);
    let (made, meant) = (fast.trails(), plain.trails());
    found == wanted
        && made.vector.records() == meant.vector.records()
        && made.sound1.records() == meant.sound1.records()
        && made.sound2.records() == meant.sound2.records()
        && made.board.records() == meant.board.records()
}

/// Forgets what both have made, and runs them to a clock, or to a boundary, or to the end of a
/// window; whether they are equal then, with the same records.
fn run_both(fast: &mut Fast, plain: &mut Plain, tape: &Tape, until: Until) -> bool
    requires limit { clock_in until ≤ CLOCK_LIMIT }
{
    fast.settle();
    plain.settle();
    fast.clear_trails();
    plain.clear_trails();
    let stops = match until {
        Until::Clock(cut) => (fast.run_to(tape, cut), plain.run_to(tape, cut)),
        Until::Boundary(limit) => (fast.run(tape, limit), plain.run(tape, limit)),
    };
    fast.settle();
    plain.settle();
    stops.0 == stops.1 && are_alike(fast, plain)
}

/// The board at a clock of a run from power-on, which is in the first window.
fn board_at(alloc: Global, image: &Image, tape: &Tape, course: Course) -> Result<BoardState, Fault>
    ensures undocumented { IfOk result (λ board. IfSome board.cpu.jam (λ o. row_of o ≡ None)) }
    ensures place { IfOk result (λ board. IfSome board.cpu.mid (λ _. IsMiddle board.cpu)) }
{
    let mut board = BoardState::power_on();
    let mut engine = Engine::new(alloc, image, &board, Devices::fast(), course.wired)?;
    engine.run_to(tape, course.start.min(CLOCK_LIMIT));
    engine.settle();
    engine.state(&mut board);
    Ok(board)
}

/// Runs a board on both kinds of devices, by boundaries and by clocks in turn; whether they are
/// alike after each part, up to the end.
fn is_same(alloc: Global, image: &Image, tape: &Tape, course: Course) -> Result<bool, Fault> {
    let board = board_at(alloc, image, tape, course)?;
    let mut fast = Engine::new(alloc, image, &board, Devices::fast(), course.wired)?;
    let mut plain = Engine::new(alloc, image, &board, plain_devices(), course.wired)?;
    for look in 0..MOST_LOOKS {
        if fast.clock() >= course.end {
            return Ok(true);
        }
        let next = fast.clock().saturating_add(course.part);
        let clock = next.min(course.end).min(CLOCK_LIMIT);
        let until = if look % 2 == 0 {
            Until::Boundary(clock)
        } else {
            Until::Clock(clock)
        };
        if !run_both(&mut fast, &mut plain, tape, until) {
            return Ok(false);
        }
    }
    Ok(false)
}

/// Prints whether the two boards were the same.
fn print_same<R: io::Print>(rt: &R, name: &str, number: u64, same: bool) -> io::Result<()> {
    let word = if same { "the same" } else { "different" };
    println!(rt; "{name} {number}: {word}")
}

/// Runs each small board on both kinds of devices.
pub fn small_boards<R: io::Print>(rt: &R, alloc: Global) -> Result<(), Fault> {
    println!(rt; "boards on fast devices and on plain ones")?;
    for (number, play) in PLAYS.iter().enumerate() {
        let image = play.image(alloc)?;
        let tape = play.tape(alloc)?;
        let same = is_same(alloc, &image, &tape, play.course)?;
        print_same(rt, "small board", number as u64, same)?;
    }
    Ok(())
}

/// How the board of a seed runs.
fn busy_course(seed: u64) -> Course {
    let start = STARTS[(seed / 4 % 8) as usize];
    Course {
        wired: seed % 2 != seed / 4 % 2,
        start,
        part: PARTS[(seed % 4) as usize],
        end: start + 6400,
    }
}

/// Runs the busy boards of some seeds on both kinds of devices.
pub fn busy_boards<R: io::Print>(rt: &R, alloc: Global, from: u64, to: u64) -> Result<(), Fault> {
    for seed in from..to {
        let mut draws = Draws::from(seed);
        let span = if seed % 8 < 4 { 48 } else { 64 };
        let image = busy_image(alloc, &mut draws, span)?;
        let tape = busy_tape(alloc, &mut draws, GAPS[(seed / 2 % 4) as usize])?;
        let same = is_same(alloc, &image, &tape, busy_course(seed))?;
        print_same(rt, "busy board", seed, same)?;
    }
    Ok(())
}
