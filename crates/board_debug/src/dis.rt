ghost use Rattle.std.specs.Prelude.{◌≡◌, ◌+◌, ◌++◌, ◌∷◌, [], ◌≤◌, length};
ghost use Rattle.text_line.specs.Words.{hex_byte};
ghost use Rattle.text_line.specs.declared.line.TheConstants.{LONGEST};
ghost use Rattle.board_debug.specs.Columns.{address_head, column};
ghost use Rattle.board_debug.specs.Instructions.{bytes_text, dis_line, dis_size, first_text};

use crate::columns::{HEAD, address_line};
use crate::operand::with_operand;
use asm_cpu::mnemonic;
use cpu_table::{decode, length};
use text_line::Line;

/// The places of the bytes of an instruction, behind the blank after its address.
pub const BYTES: usize = 9;

/// A byte and a blank.
fn with_byte(line: Line, byte: u8) -> Line
    requires { length line + 3 ≤ LONGEST }
    ensures text { result ≡ line ++ (hex_byte byte ++ 32 ∷ []) }
    ensures len { length result ≡ length line + 3 }
{
    line.hex(byte).text(b" ")
}

/// An address and some bytes, three at most, in their column.
fn bytes_line(address: u16, bytes: &[u8]) -> Line
    requires { length bytes.now ≤ 3 }
    ensures text { result ≡ address_head address ++ 32 ∷ column 9 (bytes_text bytes.now) }
    ensures len { length result ≡ 15 }
{
    let mut line = address_line(address).text(b" ");
    for byte in bytes {
        line = with_byte(line, *byte);
    }
    line.pad_to(HEAD + 1 + BYTES)
}

/// An address and the first of some bytes, or a mark where there is none, in their column.
fn first_line(address: u16, bytes: &[u8]) -> Line
    ensures text { result ≡ address_head address ++ 32 ∷ column 9 (first_text bytes.now) }
    ensures len { length result ≡ 15 }
{
    match bytes {
        [byte, ..] => bytes_line(address, &[*byte]),
        [] => address_line(address).text(b" -- ").pad_to(HEAD + 1 + BYTES),
    }
}

/// The line of the instruction at an address, and how many bytes it shows. `bytes` are those that
/// can be seen from there on, three at most, up to the first that can't.
///
/// Bytes that are no whole documented instruction are shown one by one.
#[tactic(auto, using(std::proofs::Common::append_assoc))]
pub fn dis_line(address: u16, bytes: &[u8]) -> (Line, u8)
    requires { length bytes.now ≤ 3 }
    ensures line { result.0 ≡ dis_line address bytes.now }
    ensures size { result.1 ≡ dis_size bytes.now }
{
    let Some((op, mode, operand)) = decode(bytes) else {
        return (first_line(address, bytes).text(b" ???").end(), 1);
    };
    let size = length(mode);
    let line = bytes_line(address, &bytes[..usize::from(size)]).word(mnemonic(op));
    (with_operand(line, address, mode, operand).end(), size)
}
