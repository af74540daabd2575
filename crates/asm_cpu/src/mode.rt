ghost use Rattle.std.specs.Prelude.{◌≡◌, ◌≤◌};
ghost use Rattle.asm_core.specs.Cells.{IsFieldPlace};
ghost use Rattle.asm_cpu.specs.Modes.{by_length, has_mode, is_short, mode_of, operand_origin, place_of};

use crate::operand::Shape;
use asm_core::{Expression, Names, Place, value};
use cpu_table::{Mode, Op, encode};

/// An immediate byte behind the opcode, signed or not.
const IMMEDIATE: Place = Place {
    low: -128,
    high: 255,
    even: false,
    bits: 8,
    shift: 8,
};

/// An address of the zero page behind the opcode.
const ZERO_PAGE: Place = Place {
    low: 0,
    high: 255,
    even: false,
    bits: 8,
    shift: 8,
};

/// How far a branch goes, behind the opcode.
const BRANCH: Place = Place {
    low: -128,
    high: 127,
    even: false,
    bits: 8,
    shift: 8,
};

/// An address behind the opcode.
const ADDRESS: Place = Place {
    low: 0,
    high: 65_535,
    even: false,
    bits: 16,
    shift: 8,
};

/// Whether an operation has a mode.
fn has_mode(op: Op, mode: Mode) -> bool
    ensures { result ≡ has_mode op mode }
{
    encode(op, mode).is_some()
}

/// Whether all names of an expression stand on earlier lines, and its value is 0 to 255.
fn is_short(names: &Names, expression: &Expression) -> bool
    ensures { result ≡ is_short names.now expression.now }
{
    match value(names, expression) {
        Some(value) => 0 <= value && value <= 255,
        None => false,
    }
}

/// The mode with an address of one byte or the one with an address of two.
fn by_length(names: &Names, op: Op, expression: &Expression, short: Mode, long: Mode) -> Mode
    ensures { result ≡ by_length names.now op expression.now short long }
{
    if has_mode(op, short) && is_short(names, expression) {
        short
    } else if has_mode(op, long) {
        long
    } else {
        short
    }
}

/// The mode of an operation with an operand, under the names of earlier lines.
#[tactic(auto, unfolding(crate::specs::Modes::mode_of))]
pub(crate) fn choose_mode(names: &Names, op: Op, shape: Shape, expression: &Expression) -> Mode
    ensures { result ≡ mode_of names.now op shape expression.now }
{
    match shape {
        Shape::Immediate => Mode::Immediate,
        Shape::Direct if has_mode(op, Mode::Relative) => Mode::Relative,
        Shape::Direct => by_length(names, op, expression, Mode::ZeroPage, Mode::Absolute),
        Shape::IndexedX => by_length(names, op, expression, Mode::ZeroPageX, Mode::AbsoluteX),
        Shape::IndexedY => by_length(names, op, expression, Mode::ZeroPageY, Mode::AbsoluteY),
        Shape::Indirect => Mode::Indirect,
        Shape::IndirectX => Mode::IndirectX,
        Shape::IndirectY => Mode::IndirectY,
    }
}

/// The place of the operand in a mode that has one.
pub(crate) fn place(mode: Mode) -> Place
    ensures value { result ≡ place_of mode }
    ensures inside { IsFieldPlace result }
{
    match mode {
        Mode::Immediate => IMMEDIATE,
        Mode::Relative => BRANCH,
        Mode::Absolute | Mode::AbsoluteX | Mode::AbsoluteY | Mode::Indirect => ADDRESS,
        _ => ZERO_PAGE,
    }
}

/// What the operand counts from: a branch from the address behind it.
pub(crate) fn origin(mode: Mode, at: u32) -> u32
    requires { at ≤ 65536 }
    ensures { result ≡ operand_origin mode at }
{
    match mode {
        Mode::Relative => at + 2,
        _ => 0,
    }
}
