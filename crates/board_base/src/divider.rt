use crate::device::PowerOn;
use std::marker::Model;

/// The clocks from a wrap of the divider to the next.
pub const DIVIDER_PERIOD: u16 = 6144;

/// The wraps since the watchdog was cleared that ask for a reset.
pub const WATCHDOG_WRAPS: u8 = 8;

/// The reset that the next opcode fetch takes.
#[derive(Clone, Copy, Debug, PartialEq, Eq)]
pub enum Pending {
    /// None.
    Nothing,
    /// That of power-on.
    Power,
    /// One that the watchdog asked for.
    Watchdog,
}

impl Pending {
    ghost use Rattle.std.specs.Prelude.{◌≡◌};
    ghost use Rattle.board_base.specs.Divider.{reset_number};

    /// Its number, by which saved boards and the debugger name it.
    pub fn number(self) -> u8
        ensures { result ≡ reset_number self }
    {
        match self {
            Pending::Nothing => 0,
            Pending::Power => 1,
            Pending::Watchdog => 2,
        }
    }
}

/// The interrupt divider and the watchdog. This project's own choice.
///
/// `phase` counts the clocks since the last wrap, so it is below `DIVIDER_PERIOD`; `dog` the
/// wraps since the watchdog was cleared, fewer than `WATCHDOG_WRAPS`.
#[derive(Clone, Copy, Debug, PartialEq, Eq)]
pub struct DividerState {
    pub phase: u16,
    pub irq: bool,
    pub dog: u8,
    pub pending: Pending,
}

impl Model for DividerState {
    ghost use Rattle.board_base.specs.Divider.{DividerValue, IsDivider};

    ghost Value = { DividerValue };

    ghost view = { λ p. p };

    ghost invariant = { IsDivider };

    ghost inverse = { λ p. p };
}

impl PowerOn for DividerState {
    ghost use Rattle.std.specs.Prelude.{◌≡◌};
    ghost use Rattle.board_base.specs.Divider.{divider_at_power_on};

    ghost at_power_on = { divider_at_power_on };

    /// The divider at power-on.
    fn power_on() -> DividerState
        ensures { result ≡ divider_at_power_on }
    {
        DividerState {
            phase: 0,
            irq: false,
            dog: 0,
            pending: Pending::Power,
        }
    }
}
