ghost use Rattle.std.specs.Prelude.{◌≡◌, ◌<◌, ◌≤◌, max};
ghost use Rattle.pokey_timer.specs.Countdown.{skipped};

use board_base::CLOCK_END;

/// What is left of a countdown after this many pulses, and the underflows among them.
#[inline]
#[tactic(auto, using(crate::proofs::Countdowns::skips))]
pub fn skip(left: u32, period: u32, pulses: u64) -> (u32, u64)
    requires left { 1 ≤ left }
    requires period { 1 ≤ period }
    requires pulses { pulses ≤ CLOCK_END }
    ensures value { result ≡ skipped period pulses (left, 0) }
    ensures some { 1 ≤ result.0 }
    ensures most { result.0 ≤ max left period }
{
    if pulses < u64::from(left) {
        return (left - pulses as u32, 0);
    }
    let later = pulses - u64::from(left);
    let taken = (later % u64::from(period)) as u32;
    (period - taken, later / u64::from(period) + 1)
}
