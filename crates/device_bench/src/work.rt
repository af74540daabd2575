ghost use Rattle.std.specs.Prelude.{◌≤◌};
ghost use Rattle.board_base.specs.declared.board.TheConstants.{CLOCK_LIMIT};
ghost use Rattle.device_bench.specs.declared.work.TheConstants.{SLICE};

use board_base::DIVIDER_PERIOD;

/// The clocks of one call of a device, where no other number is asked for: about those between two
/// interrupts of the board.
pub const SLICE: u64 = DIVIDER_PERIOD as u64;

/// The clocks that a device does, and those of one call of it.
#[derive(Clone, Copy)]
pub struct Work {
    pub clocks: u64,
    pub slice: u64,
    ghost most: { clocks ≤ CLOCK_LIMIT },
    ghost some: { 1 ≤ slice },
    ghost room: { slice ≤ SLICE },
}
