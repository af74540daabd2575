use crate::device::PowerOn;
use std::marker::Model;

/// The bound of the beam to each side.
pub const BEAM_EDGE: u32 = 1 << 30;

/// The bound of the distance that a vector goes to each side.
pub const DELTA_EDGE: u32 = 1 << 27;

/// The vector generator. Its phases, scales and drawing times are this project's own choice.
///
/// `pc` and `stack` are word addresses below 8,192; `bytes` are those of the word under way; `left`
/// is the number of drawing clocks that are left, in phase 5 alone. The beam `x`, `y` is within
/// plus and minus `BEAM_EDGE`, `dx` and `dy` within plus and minus `DELTA_EDGE`.
#[derive(Clone, Copy, Debug, PartialEq, Eq)]
pub struct VgState {
    pub halted: bool,
    pub phase: u8,
    pub pc: u16,
    pub sp: u8,
    pub colour: u8,
    pub intensity: u8,
    pub lin: u8,
    pub bin: u8,
    pub pen: u8,
    pub bytes: [u8; 4],
    pub stack: [u16; 4],
    pub x: i32,
    pub y: i32,
    pub dx: i32,
    pub dy: i32,
    pub left: u16,
}

impl Model for VgState {
    ghost use Rattle.board_base.specs.Vg.{VgValue, IsVg};

    ghost Value = { VgValue };

    ghost view = { λ p. p };

    ghost invariant = { IsVg };

    ghost inverse = { λ p. p };
}

impl PowerOn for VgState {
    ghost use Rattle.std.specs.Prelude.{◌≡◌};
    ghost use Rattle.board_base.specs.Vg.{vg_at_power_on};

    ghost at_power_on = { vg_at_power_on };

    /// The generator at power-on.
    fn power_on() -> VgState
        ensures { result ≡ vg_at_power_on }
    {
        VgState {
            halted: true,
            phase: 0,
            pc: 0,
            sp: 0,
            colour: 0,
            intensity: 0,
            lin: 0,
            bin: 0,
            pen: 0,
            bytes: [0; 4],
            stack: [0; 4],
            x: 0,
            y: 0,
            dx: 0,
            dy: 0,
            left: 0,
        }
    }
}
