use crate::device::PowerOn;
use std::marker::Model;

/// The cells of an EAROM, a byte each.
pub const CELLS: usize = 64;

/// The clocks for which an erase or a write is held until it is done.
pub const HOLD_CLOCKS: u16 = 1512;

/// The EAROM: its latches, and its 64 cells of a byte (ER2055 data sheet; the modes are this
/// project's own choice).
///
/// `control` has the four lines clock, not-C1, C2 and select in bits 0 to 3; `hold` counts the
/// clocks for which an erase or a write has been held, at most `HOLD_CLOCKS`.
#[derive(Clone, Copy, Debug, PartialEq, Eq)]
pub struct EaromState {
    pub addr: u8,
    pub value: u8,
    pub control: u8,
    pub hold: u16,
    pub out: u8,
    pub cells: [u8; CELLS],
}

impl Model for EaromState {
    ghost use Rattle.board_base.specs.Earom.{EaromValue, IsEarom};

    ghost Value = { EaromValue };

    ghost view = { λ p. p };

    ghost invariant = { IsEarom };

    ghost inverse = { λ p. p };
}

impl PowerOn for EaromState {
    ghost use Rattle.std.specs.Prelude.{◌≡◌};
    ghost use Rattle.board_base.specs.Earom.{earom_at_power_on};

    ghost at_power_on = { earom_at_power_on };

    /// The EAROM at power-on, with all cells erased.
    fn power_on() -> EaromState
        ensures { result ≡ earom_at_power_on }
    {
        EaromState {
            addr: 0,
            value: 0,
            control: 0,
            hold: 0,
            out: 0xFF,
            cells: [0xFF; CELLS],
        }
    }
}
