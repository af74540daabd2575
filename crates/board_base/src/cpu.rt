use std::marker::Model;

/// What the processor is doing between two boundaries: executing an instruction, or taking an
/// interrupt or a reset (MCS6500 Hardware Manual, "Interrupt and Reset").
#[derive(Clone, Copy, Debug, PartialEq, Eq)]
pub enum Sequence {
    /// An instruction.
    Opcode,
    /// The interrupt sequence.
    Interrupt,
    /// The reset sequence.
    Reset,
}

/// How far the processor is inside a sequence.
///
/// `count` is the number of clocks done, at most 6; the first `count` of `bytes` are the bytes of
/// their accesses, read or written, in order.
#[derive(Clone, Copy, Debug, PartialEq, Eq)]
pub struct Mid {
    pub sequence: Sequence,
    pub count: u8,
    pub bytes: [u8; 6],
}

impl Model for Mid {
    ghost use Rattle.board_base.specs.Mid.{MidValue, IsMid};

    ghost Value = { MidValue };

    ghost view = { λ p. p };

    ghost invariant = { IsMid };

    ghost inverse = { λ p. p };
}

/// The processor's registers (MCS6500 Programming Manual, chapters 1 to 3), and where it stands.
///
/// `p` holds N V - - D I Z C, with bits 4 and 5 clear. `jam` is the undocumented opcode that
/// stopped the processor. While `mid` is there, the registers are those at the start of the
/// sequence; for a reset `s` is lowered by 3 already and I is set.
///
/// The registers don't stand in a row: four in a row LLVM would keep in one vector register, and
/// take them out of it in each instruction.
#[derive(Clone, Copy, Debug, PartialEq, Eq)]
pub struct CpuState {
    pub pc: u16,
    pub a: u8,
    pub x: u8,
    pub mid: Option<Mid>,
    pub y: u8,
    pub jam: Option<u8>,
    pub s: u8,
    pub p: u8,
}

impl Model for CpuState {
    ghost use Rattle.board_base.specs.Cpu.{CpuValue, IsCpu};

    ghost Value = { CpuValue };

    ghost view = { λ p. p };

    ghost invariant = { IsCpu };

    ghost inverse = { λ p. p };
}

impl CpuState {
    ghost use Rattle.std.specs.Prelude.{◌≡◌};
    ghost use Rattle.board_base.specs.Cpu.{cpu_at_power_on};

    /// The processor at power-on, before its reset.
    pub fn power_on() -> CpuState
        ensures { result ≡ cpu_at_power_on }
    {
        CpuState {
            pc: 0,
            a: 0,
            x: 0,
            y: 0,
            s: 0,
            p: 0,
            jam: None,
            mid: None,
        }
    }
}
