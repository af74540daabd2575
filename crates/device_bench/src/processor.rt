ghost use Rattle.std.specs.Prelude.{◌≤◌};

use board_base::{CLOCK_LIMIT, CpuState, OutOfMemory};
use cpu_core::{Cpu, Fetched};
use flat_bus::UnloggedBus;
use std::alloc::Global;

/// The program's address.
const START: u16 = 0x9000;

/// `INX`, `BNE` back to it, and a jump to the start.
const COUNTING: [u8; 6] = [0xE8, 0xD0, 0xFD, 0x4C, 0x00, 0x90];

/// The instructions of a round, in which X goes through all its values: 256 times `INX` and `BNE`,
/// and the jump.
const ROUND_INSTRUCTIONS: u64 = 513;

/// The clocks of a round: `INX` takes 2, `BNE` 3 where it branches and 2 at the end, the jump 3.
pub const ROUND_CLOCKS: u64 = 1282;

/// Runs a bare 6502 for so many rounds, on a bus without a log, and returns its state then.
pub fn count(alloc: Global, rounds: u64) -> Result<CpuState, OutOfMemory>
    requires { rounds ≤ CLOCK_LIMIT }
{
    let mut bus = UnloggedBus::new(alloc)?;
    bus.load(START, &COUNTING);
    let mut cpu = Cpu::new(CpuState {
        pc: START,
        ..CpuState::power_on()
    });
    'instructions: for _done in 0..rounds * ROUND_INSTRUCTIONS {
        match cpu.instruction(&mut bus, &()) {
            Fetched::Done => {}
            Fetched::Jammed(_) => break 'instructions,
        }
    }
    Ok(*cpu.state())
}
