ghost use Rattle.std.specs.Prelude.{◌≡◌, ◌+◌, ◌≤◌, ◌++◌, ◌∷◌, length};
ghost use Rattle.text_line.specs.declared.line.TheConstants.{LONGEST};
ghost use Rattle.board_debug.specs.Bytes.{byte_text, mem_line};

use crate::columns::address_line;
use text_line::Line;

/// The most bytes of a line.
pub const ROW: usize = 16;

/// A blank and a byte, or a mark where it can't be seen.
fn with_byte(line: Line, byte: Option<u8>) -> Line
    requires { length line + 3 ≤ LONGEST }
    ensures text { result ≡ line ++ 32 ∷ byte_text byte }
    ensures len { length result ≡ length line + 3 }
{
    match byte {
        Some(byte) => line.hex_byte(byte),
        None => line.text(b" --"),
    }
}

/// The line of some bytes, 16 at most, the first at this address.
pub fn mem_line(address: u16, bytes: &[Option<u8>]) -> Line
    requires { length bytes.now ≤ ROW }
    ensures { result ≡ mem_line address bytes.now }
{
    let mut line = address_line(address);
    for byte in bytes {
        line = with_byte(line, *byte);
    }
    line.end()
}
