use crate::cpu::CpuState;
use crate::device::PowerOn;
use crate::divider::DividerState;
use crate::earom::EaromState;
use crate::pokey::PokeyState;
use crate::vector_memory::VECTOR_RAM_LEN;
use crate::vg::VgState;
use std::marker::Model;

/// The bytes of the RAM, from address 0000.
pub const RAM_LEN: usize = 2048;

/// The greatest clock of a tape and of a word of the command line, 2^48.
pub const CLOCK_LIMIT: u64 = 281_474_976_710_656;

/// The clock past which no device is moved, 2^49.
pub const CLOCK_END: u64 = 562_949_953_421_312;

/// The whole board between two clocks.
///
/// `clock` is the number of clocks done, at most `CLOCK_LIMIT` + 16, and at most `CLOCK_LIMIT`
/// inside a sequence. `in0` has bits 0 to 5 alone; `out` is the output latch; `ram` and `vram` are
/// the bytes from 0000 and from 2000.
#[derive(Debug, PartialEq, Eq, Drop)]
pub struct BoardState {
    pub clock: u64,
    pub cpu: CpuState,
    pub out: u8,
    pub in0: u8,
    pub in3: u8,
    pub in4: u8,
    pub divider: DividerState,
    pub vg: VgState,
    pub sound1: PokeyState,
    pub sound2: PokeyState,
    pub earom: EaromState,
    pub ram: [u8; RAM_LEN],
    pub vram: [u8; VECTOR_RAM_LEN],
}

/// The output latch and the input ports of a board.
///
/// `in0` has bits 0 to 5 alone.
#[derive(Clone, Copy, Debug, PartialEq, Eq)]
pub struct Ports {
    pub out: u8,
    pub in0: u8,
    pub in3: u8,
    pub in4: u8,
}

impl Model for BoardState {
    ghost use Rattle.board_base.specs.Board.{BoardValue, IsBoard};

    ghost Value = { BoardValue };

    ghost view = { λ p. p };

    ghost invariant = { IsBoard };

    ghost inverse = { λ p. p };
}

impl BoardState {
    ghost use Rattle.std.specs.Prelude.{◌≡◌, ◌<◌};
    ghost use Rattle.board_base.specs.Board.{board_at_power_on, ports_of, with_ports};

    /// The board at power-on, before its first clock.
    pub fn power_on() -> BoardState
        ensures { result ≡ board_at_power_on }
    {
        BoardState {
            clock: 0,
            cpu: CpuState::power_on(),
            out: 0,
            in0: 0x3F,
            in3: 0xFF,
            in4: 0xFF,
            divider: DividerState::power_on(),
            vg: VgState::power_on(),
            sound1: PokeyState::power_on(),
            sound2: PokeyState::power_on(),
            earom: EaromState::power_on(),
            ram: [0; RAM_LEN],
            vram: [0; VECTOR_RAM_LEN],
        }
    }

    /// Its output latch and its ports.
    pub fn ports(&self) -> Ports
        ensures ports { result ≡ ports_of self.now }
        ensures range { result.in0 < 64 }
    {
        Ports {
            out: self.out,
            in0: self.in0,
            in3: self.in3,
            in4: self.in4,
        }
    }

    /// Sets its output latch and its ports.
    pub fn set_ports(&mut self, ports: Ports)
        requires { ports.in0 < 64 }
        ensures { self.new ≡ with_ports ports self.old }
    {
        let Ports { out, in0, in3, in4 } = ports;
        self.out = out;
        self.in0 = in0;
        self.in3 = in3;
        self.in4 = in4;
    }
}
