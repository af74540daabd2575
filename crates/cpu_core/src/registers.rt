ghost use Rattle.std.specs.Prelude.{◌≡◌};
ghost use Rattle.cpu_core.specs.Registers.{registers_of, at_boundary, jammed_on, stack_address};

use board_base::CpuState;
use std::marker::Model;

/// The registers that a sequence works on, with bits 4 and 5 of the flags clear.
#[derive(Clone, Copy)]
pub(crate) struct Registers {
    pub pc: u16,
    pub a: u8,
    pub x: u8,
    pub y: u8,
    pub s: u8,
    pub p: u8,
}

impl Model for Registers {
    ghost use Rattle.cpu_core.specs.Registers.{RegistersValue, AreRegisters};

    ghost Value = { RegistersValue };

    ghost view = { λ r. record { pc = r.pc; a = r.a; x = r.x; y = r.y; s = r.s; p = r.p } };

    ghost invariant = { λ r. AreRegisters (record { pc = r.pc; a = r.a; x = r.x; y = r.y; s = r.s; p = r.p }) };

    ghost inverse = { λ r. record { pc = r.pc; a = r.a; x = r.x; y = r.y; s = r.s; p = r.p } };
}

impl Registers {
    /// The registers of a processor.
    #[inline(always)]
    pub fn of(state: &CpuState) -> Registers
        ensures { result ≡ registers_of state.now }
    {
        Registers {
            pc: state.pc,
            a: state.a,
            x: state.x,
            y: state.y,
            s: state.s,
            p: state.p,
        }
    }

    /// The address of the stack pointer, in page 1.
    #[inline(always)]
    pub fn stack_address(&self) -> u16
        ensures { result ≡ stack_address self.now }
    {
        256 + u16::from(self.s)
    }

    /// A processor with these registers between two sequences.
    #[inline(always)]
    pub fn at_boundary(&self) -> CpuState
        ensures { result ≡ at_boundary self.now }
    {
        CpuState {
            pc: self.pc,
            a: self.a,
            x: self.x,
            y: self.y,
            s: self.s,
            p: self.p,
            jam: None,
            mid: None,
        }
    }

    /// A processor with these registers that this opcode has stopped.
    #[inline(always)]
    pub fn jammed_on(&self, opcode: u8) -> CpuState
        ensures { result ≡ jammed_on self.now opcode }
    {
        CpuState {
            jam: Some(opcode),
            ..self.at_boundary()
        }
    }
}
