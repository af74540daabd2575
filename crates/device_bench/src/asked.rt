ghost use Rattle.std.specs.Prelude.{◌≡◌, ◌≤◌};
ghost use Rattle.device_bench.specs.Report.{clocks_of};

use crate::work::{SLICE, Work};
use board_base::CLOCK_LIMIT;

/// What is printed: sums over a fixed number of clocks, or times of as many as were asked for, at
/// most `CLOCK_LIMIT`.
#[derive(Clone, Copy, PartialEq, Eq)]
pub enum Report {
    /// Sums, which are the same on every machine.
    Sums,
    /// Times of so many clocks.
    Times { clocks: u64 },
}

impl Report {
    /// The clocks to be done by calls of `slice` clocks, where `fixed` are those of the sums.
    pub fn work(self, fixed: u64, slice: u64) -> Work
        requires fixed { fixed ≤ CLOCK_LIMIT }
        requires some { 1 ≤ slice }
        requires room { slice ≤ SLICE }
        ensures clocks { result.clocks ≡ clocks_of self fixed }
        ensures slice { result.slice ≡ slice }
    {
        let clocks = match self {
            Report::Sums => fixed,
            Report::Times { clocks } => clocks.min(CLOCK_LIMIT),
        };
        Work { clocks, slice }
    }
}
