use crate::device::PowerOn;
use std::marker::Model;

/// The clocks from a pulse of the prescaler of the base clock to the next (C012294 data sheet, 64
/// kHz).
pub const PRESCALER_BASE: u8 = 28;

/// The clocks from a pulse of the slow prescaler to the next (C012294 data sheet, 15 kHz).
pub const PRESCALER_LINE: u8 = 114;

/// The count at which a pot scan stands still (C012294 data sheet, POT0 to POT7).
pub const POT_LIMIT: u8 = 228;

/// The pulses of the longest period: that of two joined channels on the chip clock.
pub const LONGEST_PERIOD: u32 = 65_542;

/// A POKEY (POKEY C012294 data sheet; joined channels, pots and the order within a tick are this
/// project's own choice).
///
/// `audf`, `audc`, `left` and `last` have channels 1 to 4 in this order; `left` counts pulses to
/// the next underflow, 1 to `LONGEST_PERIOD`. Bit i - 1 of `tone` is channel i's; `pass` has the
/// high-pass bits of channels 1 and 2. `irqst` has a 0 where a request stands.
#[derive(Clone, Copy, Debug, PartialEq, Eq)]
pub struct PokeyState {
    pub audf: [u8; 4],
    pub audc: [u8; 4],
    pub audctl: u8,
    pub skctl: u8,
    pub irqen: u8,
    pub irqst: u8,
    pub poly4: u8,
    pub poly5: u8,
    pub poly9: u16,
    pub poly17: u32,
    pub pre28: u8,
    pub pre114: u8,
    pub left: [u32; 4],
    pub tone: u8,
    pub pass: u8,
    pub pot: u8,
    pub targets: [u8; 8],
    pub last: [u8; 4],
}

impl Model for PokeyState {
    ghost use Rattle.board_base.specs.Pokey.{PokeyValue, IsPokey};

    ghost Value = { PokeyValue };

    ghost view = { λ p. p };

    ghost invariant = { IsPokey };

    ghost inverse = { λ p. p };
}

impl PowerOn for PokeyState {
    ghost use Rattle.std.specs.Prelude.{◌≡◌};
    ghost use Rattle.board_base.specs.Pokey.{pokey_at_power_on};

    ghost at_power_on = { pokey_at_power_on };

    /// A POKEY at power-on.
    fn power_on() -> PokeyState
        ensures { result ≡ pokey_at_power_on }
    {
        PokeyState {
            audf: [0; 4],
            audc: [0; 4],
            audctl: 0,
            skctl: 0,
            irqen: 0,
            irqst: 7,
            poly4: 0xF,
            poly5: 0x1F,
            poly9: 0x1FF,
            poly17: 0x1FFFF,
            pre28: 0,
            pre114: 0,
            left: [1; 4],
            tone: 0,
            pass: 0,
            pot: 0,
            targets: [0; 8],
            last: [0; 4],
        }
    }
}
