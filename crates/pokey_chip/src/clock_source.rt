ghost use Rattle.std.specs.Prelude.{◌≡◌, ℕ, ◌≤◌};
ghost use Rattle.pokey_chip.specs.ClockSources.{IsClockSource, source_pulses};
ghost use Rattle.pokey_chip.specs.Pulses.{pulses_of};

use crate::channel::Channel;
use crate::control::SLOW_BASE_CLOCK;
use crate::tick::is_held;
use bit_words::is_set;
use board_base::{CLOCK_END, PRESCALER_BASE, PRESCALER_LINE, PokeyState};
use pokey_timer::pulses_in;

/// What gives a channel its pulses while no register is written.
#[derive(Clone, Copy)]
pub enum ClockSource {
    /// Nothing does.
    Never,
    /// The chip clock does.
    ChipClock,
    /// The prescaler by 28 does, at this count.
    By28 { count: u8 },
    /// The prescaler by 114 does, at this count.
    By114 { count: u8 },
}

impl ClockSource {
    /// The clock source of a channel.
    #[inline(always)]
    #[tactic(auto, using(crate::proofs::RegisterLaws::paces))]
    pub fn of(state: &PokeyState, channel: Channel) -> ClockSource
        ensures pulses { (n : ℕ) → pulses_of channel n state.now ≡ source_pulses result n }
        ensures prescaler { IsClockSource result }
    {
        if channel.is_still(state.audctl) {
            ClockSource::Never
        } else if channel.is_on_chip_clock(state.audctl) {
            ClockSource::ChipClock
        } else if is_held(state.skctl) {
            ClockSource::Never
        } else if is_set(state.audctl, SLOW_BASE_CLOCK) {
            ClockSource::By114 {
                count: state.pre114,
            }
        } else {
            ClockSource::By28 { count: state.pre28 }
        }
    }

    /// The pulses in the next `n` clocks.
    #[inline(always)]
    pub fn pulses(self, n: u64) -> u64
        requires n { n ≤ CLOCK_END }
        requires prescaler { IsClockSource self }
        ensures { result ≡ source_pulses self n }
    {
        match self {
            ClockSource::Never => 0,
            ClockSource::ChipClock => n,
            ClockSource::By28 { count } => pulses_in(count, PRESCALER_BASE, n),
            ClockSource::By114 { count } => pulses_in(count, PRESCALER_LINE, n),
        }
    }
}
