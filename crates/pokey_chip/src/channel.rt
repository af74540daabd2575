ghost use Rattle.std.specs.Prelude.{◌≡◌, ◌+◌, ◌*◌, ◌<◌, ◌≤◌};

use crate::control::{CHIP_CLOCK_1, CHIP_CLOCK_3, JOIN_1_2, JOIN_3_4};
use bit_words::is_set;
use board_base::LONGEST_PERIOD;

/// A channel of a POKEY: channels 1 to 4.
#[derive(Clone, Copy, Debug, PartialEq, Eq)]
pub enum Channel {
    /// Channel 1.
    First,
    /// Channel 2.
    Second,
    /// Channel 3.
    Third,
    /// Channel 4.
    Fourth,
}

impl Channel {
    ghost use Rattle.pokey_chip.specs.Channels.{extra_of, frequency_of, is_on_chip_clock, is_still, is_upper, period_of, place};

    /// The place of a channel in the arrays of a state.
    pub(crate) fn index(self) -> usize
        ensures value { result ≡ place self }
        ensures within { result < 4 }
    {
        match self {
            Channel::First => 0,
            Channel::Second => 1,
            Channel::Third => 2,
            Channel::Fourth => 3,
        }
    }

    /// Whether it is the lower channel of a joined pair.
    pub(crate) fn is_still(self, audctl: u8) -> bool
        ensures { result ≡ is_still audctl self }
    {
        match self {
            Channel::First => is_set(audctl, JOIN_1_2),
            Channel::Third => is_set(audctl, JOIN_3_4),
            Channel::Second | Channel::Fourth => false,
        }
    }

    /// Whether it is the upper channel of a joined pair.
    fn is_upper(self, audctl: u8) -> bool
        ensures { result ≡ is_upper audctl self }
    {
        match self {
            Channel::Second => is_set(audctl, JOIN_1_2),
            Channel::Fourth => is_set(audctl, JOIN_3_4),
            Channel::First | Channel::Third => false,
        }
    }

    /// Whether it is on the chip clock.
    pub(crate) fn is_on_chip_clock(self, audctl: u8) -> bool
        ensures { result ≡ is_on_chip_clock audctl self }
    {
        match self {
            Channel::First => is_set(audctl, CHIP_CLOCK_1),
            Channel::Second => is_set(audctl, JOIN_1_2) && is_set(audctl, CHIP_CLOCK_1),
            Channel::Third => is_set(audctl, CHIP_CLOCK_3),
            Channel::Fourth => is_set(audctl, JOIN_3_4) && is_set(audctl, CHIP_CLOCK_3),
        }
    }

    /// The number that a channel counts.
    fn frequency(self, audf: &[u8; 4], audctl: u8) -> u32
        ensures value { result ≡ frequency_of audf.now audctl self }
        ensures within { result < 65536 }
    {
        match self {
            Channel::First => u32::from(audf[0]),
            Channel::Second if is_set(audctl, JOIN_1_2) => joined(audf[0], audf[1]),
            Channel::Second => u32::from(audf[1]),
            Channel::Third => u32::from(audf[2]),
            Channel::Fourth if is_set(audctl, JOIN_3_4) => joined(audf[2], audf[3]),
            Channel::Fourth => u32::from(audf[3]),
        }
    }

    /// The pulses that a period has more than its number.
    fn extra(self, audctl: u8) -> u32
        ensures value { result ≡ extra_of audctl self }
        ensures low { 1 ≤ result }
        ensures high { result ≤ 7 }
    {
        if !self.is_on_chip_clock(audctl) {
            1
        } else if self.is_upper(audctl) {
            7
        } else {
            4
        }
    }

    /// The pulses from an underflow to the next, 1 to 65,542.
    #[tactic(auto, unfolding(crate::specs::Channels::period_of))]
    pub(crate) fn period(self, audf: &[u8; 4], audctl: u8) -> u32
        ensures value { result ≡ period_of audf.now audctl self }
        ensures low { 1 ≤ result }
        ensures high { result ≤ LONGEST_PERIOD }
    {
        self.frequency(audf, audctl) + self.extra(audctl)
    }
}

/// Two AUDF registers as one number, with the lower channel's as the low byte.
fn joined(lower: u8, upper: u8) -> u32
    ensures { result ≡ lower + 256 * upper }
{
    u32::from(lower) + 256 * u32::from(upper)
}
