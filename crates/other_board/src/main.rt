//! The chips as libraries: a 6502 on a bus of bytes, and one beside a POKEY on a board of our own.
#![tactic(auto)]

ghost use Rattle.std.specs.Prelude.{◌≡◌, None};

mod beeper;

use crate::beeper::Beeper;
use board_base::{CpuState, OutOfMemory, Record};
use cpu_core::{Cpu, Fetched};
use flat_bus::{Direction, FlatBus};
use std::alloc::Global;
use std::io;

/// The address of both programs.
const START: u16 = 0x9000;

/// `LDA #$15`, `ASL A`, `STA $10`.
const DOUBLING: [u8; 5] = [0xA9, 0x15, 0x0A, 0x85, 0x10];

/// Lets the POKEY run, sets a period of 3 pulses of 28 clocks and a pure tone at level 8, and
/// waits: `LDA`, `STA $D20F`, `LDA`, `STA $D200`, `LDA`, `STA $D201`, `JMP` to itself.
const BEEPING: [u8; 18] = [
    0xA9, 0x03, 0x8D, 0x0F, 0xD2, 0xA9, 0x02, 0x8D, 0x00, 0xD2, 0xA9, 0xA8, 0x8D, 0x01, 0xD2, 0x4C,
    0x0F, 0x90,
];

/// Why it ended early.
#[derive(Debug, Drop)]
enum Fault {
    /// No memory.
    NoMemory,
    /// A write failed.
    Output(io::Error),
}

/// A processor that begins at `START`.
fn processor() -> Cpu
    ensures running { result.jam ≡ None }
    ensures boundary { result.mid ≡ None }
{
    Cpu::new(CpuState {
        pc: START,
        ..CpuState::power_on()
    })
}

/// Runs three instructions on a bus of bytes.
fn double(alloc: Global) -> Result<FlatBus, OutOfMemory> {
    let mut bus = FlatBus::new(alloc, 21)?;
    bus.load(START, &DOUBLING);
    let mut cpu = processor();
    'instructions: for _done in 0..3 {
        if bus.room() < 7 {
            break 'instructions;
        }
        match cpu.instruction(&mut bus, &()) {
            Fetched::Done => {}
            Fetched::Jammed(_) => break 'instructions,
        }
    }
    Ok(bus)
}

/// Runs the other program for 400 clocks and a few.
fn beep(alloc: Global) -> Result<Beeper, OutOfMemory> {
    let mut board = Beeper::new(alloc, 407)?;
    board.load(START, &BEEPING);
    let mut cpu = processor();
    'instructions: for _done in 0..200 {
        if board.left() < 7 {
            break 'instructions;
        }
        match cpu.instruction(&mut board, &()) {
            Fetched::Done => {}
            Fetched::Jammed(_) => break 'instructions,
        }
    }
    Ok(board)
}

/// Prints each access of the first program.
fn print_accesses<R: io::Print>(rt: &R, bus: &FlatBus) -> io::Result<()> {
    println!(rt; "a 6502 on a bus of bytes")?;
    for access in bus.log() {
        let verb = match access.direction {
            Direction::Read => "reads",
            Direction::Write => "writes",
        };
        println!(rt;
            "clock {} {verb} {:04X}: {:02X}",
            access.clock, access.addr, access.byte
        )?;
    }
    Ok(())
}

/// Prints each change of channel 1's level.
fn print_levels<R: io::Print>(rt: &R, board: &Beeper) -> io::Result<()> {
    println!(rt; "a 6502 and a POKEY at D200")?;
    for record in board.levels() {
        if let Record::Levels { clock, l1, .. } = record {
            println!(rt; "clock {clock} level {l1}")?;
        }
    }
    Ok(())
}

fn main(rt: HostRuntime) -> Result<(), Fault> {
    let bus = double(rt.alloc()).map_err(|_| Fault::NoMemory)?;
    print_accesses(&rt, &bus).map_err(Fault::Output)?;
    let board = beep(rt.alloc()).map_err(|_| Fault::NoMemory)?;
    print_levels(&rt, &board).map_err(Fault::Output)
}
