ghost use Rattle.std.specs.Prelude.{◌≡◌, ◌+◌, ◌++◌, ◌∷◌, [], ◌<◌, ◌≤◌, decimal, length};
ghost use Rattle.std.specs.Fmt.{signed_decimal};
ghost use Rattle.avg_decode.specs.Word.{IsInRange};
ghost use Rattle.text_line.specs.declared.line.TheConstants.{LONGEST};
ghost use Rattle.board_debug.specs.Statements.{jump_text, operands, statement_text};

use crate::operand::with_word;
use avg_decode::{VgWord, second};
use board_map::VECTOR_RAM_START;
use text_line::Line;

/// A vector: its word, its distances, and how bright it is.
#[tactic(auto, using(std::proofs::Common::append_assoc))]
fn with_vector(line: Line, dx: i16, dy: i16, z: u8) -> Line
    requires { length line + 30 ≤ LONGEST }
    ensures text { result ≡ line ++ operands (signed_decimal dx ∷ signed_decimal dy ∷ decimal z ∷ []) }
    ensures len { length result ≤ length line + 30 }
{
    line.signed(i32::from(dx))
        .text(b",")
        .signed(i32::from(dy))
        .text(b",")
        .small(z)
}

/// A setting: its word and its two numbers.
#[tactic(auto, using(std::proofs::Common::append_assoc))]
fn with_setting(line: Line, first: u8, other: u8) -> Line
    requires { length line + 9 ≤ LONGEST }
    ensures text { result ≡ line ++ operands (decimal first ∷ decimal other ∷ []) }
    ensures len { length result ≤ length line + 9 }
{
    line.small(first).text(b",").small(other)
}

/// A jump: its word and its address.
#[tactic(auto, using(std::proofs::Common::append_assoc))]
fn with_jump(line: Line, to: u16) -> Line
    requires room { length line + 6 ≤ LONGEST }
    requires range { to < 8192 }
    ensures text { result ≡ line ++ operands (jump_text to ∷ []) }
    ensures len { length result ≤ length line + 6 }
{
    with_word(line.text(b" $"), VECTOR_RAM_START + 2 * to)
}

/// The statement of a word, with the second word of a long vector.
#[tactic(auto, using(std::proofs::Common::append_assoc))]
pub fn with_statement(line: Line, word: VgWord, second_word: u16) -> Line
    requires room { length line + 34 ≤ LONGEST }
    requires range { IsInRange word }
    ensures text { result ≡ line ++ statement_text word second_word }
    ensures len { length result ≤ length line + 34 }
{
    match word {
        VgWord::Vctr { dy } => {
            let (dx, z) = second(second_word);
            with_vector(line.text(b"vctr"), dx, dy, z)
        }
        VgWord::Halt => line.text(b"halt"),
        VgWord::Svec { dx, dy, z } => with_vector(line.text(b"svec"), dx, dy, z),
        VgWord::Stat { colour, intensity } => with_setting(line.text(b"stat"), colour, intensity),
        VgWord::Scal { bin, lin } => with_setting(line.text(b"scal"), bin, lin),
        VgWord::Cntr => line.text(b"cntr"),
        VgWord::Jsrl { to } => with_jump(line.text(b"jsrl"), to),
        VgWord::Rtsl => line.text(b"rtsl"),
        VgWord::Jmpl { to } => with_jump(line.text(b"jmpl"), to),
    }
}
