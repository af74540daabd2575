ghost use Rattle.std.specs.Prelude.{◌≡◌, ◌+◌, ◌++◌, ◌<◌, ◌≤◌, length};
ghost use Rattle.cpu_table.specs.Decoding.{length_of};
ghost use Rattle.text_line.specs.Words.{hex_word};
ghost use Rattle.text_line.specs.declared.line.TheConstants.{LONGEST};
ghost use Rattle.board_debug.specs.Instructions.{operand_text, target_of};

use cpu_table::Mode;
use text_line::Line;

/// Four hexadecimal digits.
#[tactic(auto, using(std::proofs::Common::append_assoc))]
pub fn with_word(line: Line, word: u16) -> Line
    requires { length line + 4 ≤ LONGEST }
    ensures text { result ≡ line ++ hex_word word }
    ensures len { length result ≡ length line + 4 }
{
    let [high, low] = word.to_be_bytes();
    line.hex(high).hex(low)
}

/// Where a branch at an address goes.
fn target(address: u16, byte: u8) -> u16
    ensures { result ≡ target_of address byte }
{
    let forward = address.wrapping_add(2).wrapping_add(u16::from(byte));
    if byte < 0x80 {
        forward
    } else {
        forward.wrapping_add(0xFF00)
    }
}

/// The operand of an instruction at an address, behind its name.
#[tactic(auto, using(std::proofs::Common::append_assoc))]
pub fn with_operand(line: Line, address: u16, mode: Mode, operand: u16) -> Line
    requires room { length line + 8 ≤ LONGEST }
    requires short { length_of mode ≤ 2 → operand < 256 }
    ensures text { result ≡ line ++ operand_text address mode operand }
    ensures len { length result ≤ length line + 8 }
{
    let [_, byte] = operand.to_be_bytes();
    match mode {
        Mode::Implied => line,
        Mode::Accumulator => line.text(b" a"),
        Mode::Immediate => line.text(b" #$").hex(byte),
        Mode::ZeroPage => line.text(b" $").hex(byte),
        Mode::ZeroPageX => line.text(b" $").hex(byte).text(b",x"),
        Mode::ZeroPageY => line.text(b" $").hex(byte).text(b",y"),
        Mode::Absolute => with_word(line.text(b" $"), operand),
        Mode::AbsoluteX => with_word(line.text(b" $"), operand).text(b",x"),
        Mode::AbsoluteY => with_word(line.text(b" $"), operand).text(b",y"),
        Mode::Indirect => with_word(line.text(b" ($"), operand).text(b")"),
        Mode::IndirectX => line.text(b" ($").hex(byte).text(b",x)"),
        Mode::IndirectY => line.text(b" ($").hex(byte).text(b"),y"),
        Mode::Relative => with_word(line.text(b" $"), target(address, byte)),
    }
}
