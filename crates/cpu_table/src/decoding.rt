ghost use Rattle.std.specs.Prelude.{◌≡◌};
ghost use Rattle.cpu_table.specs.Decoding.{decoded, length_of};

use crate::{Mode, Op, entry};

/// The length in bytes of an instruction in this addressing mode. `Implied` counts the opcode
/// alone, so `Brk` has one byte here.
pub fn length(mode: Mode) -> u8
    ensures { result ≡ length_of mode }
{
    match mode {
        Mode::Implied | Mode::Accumulator => 1,
        Mode::Absolute | Mode::AbsoluteX | Mode::AbsoluteY | Mode::Indirect => 3,
        _ => 2,
    }
}

/// The instruction at the start of `bytes`: its operation, its addressing mode and its operand.
/// `None` where there is no opcode, where it is undocumented, or where its operand is cut off.
pub fn decode(bytes: &[u8]) -> Option<(Op, Mode, u16)>
    ensures { result ≡ decoded bytes.now }
{
    let (opcode, rest) = bytes.split_first()?;
    let (op, mode) = entry(*opcode)?;
    let operand = match (length(mode), rest) {
        (1, _) => 0,
        (2, [low, ..]) => u16::from(*low),
        (3, [low, high, ..]) => u16::from_le_bytes([*low, *high]),
        _ => return None,
    };
    Some((op, mode, operand))
}
