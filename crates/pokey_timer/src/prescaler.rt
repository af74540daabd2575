ghost use Rattle.std.specs.Prelude.{◌≡◌, ℕ, ◌<◌, ◌≤◌};
ghost use Rattle.pokey_timer.specs.Prescaler.{count_after, pulses};

use board_base::CLOCK_END;

/// The pulses that a prescaler gives in the next `n` ticks.
#[inline]
#[tactic(auto, using(crate::proofs::Prescalers::rounds))]
pub fn pulses_in(count: u8, period: u8, n: u64) -> u64
    requires count { count < period }
    requires n { n ≤ CLOCK_END }
    ensures { result ≡ pulses period count n }
{
    (u64::from(count) + n) / u64::from(period)
}

/// The count of a prescaler after `n` ticks.
#[inline]
#[tactic(auto, using(crate::proofs::Prescalers::rounds))]
pub fn prescaler_after(count: u8, period: u8, n: u64) -> u8
    requires count { count < period }
    requires n { n ≤ CLOCK_END }
    ensures value { result ≡ count_after period count n }
    ensures below { result < period }
{
    ((u64::from(count) + n) % u64::from(period)) as u8
}

/// The ticks up to and with the prescaler's pulse that takes the last of the `left` pulses.
#[inline]
#[tactic(auto, using(crate::proofs::Prescalers::waits))]
pub fn clocks_to_underflow(left: u32, count: u8, period: u8) -> u64
    requires left { 1 ≤ left }
    requires count { count < period }
    ensures reached { pulses period count result ≡ left }
    ensures least { (n : ℕ) → n < result → pulses period count n < left }
{
    u64::from(left) * u64::from(period) - u64::from(count)
}
