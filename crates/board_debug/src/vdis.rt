ghost use Rattle.std.specs.Prelude.{◌≡◌, ◌++◌, ◌∷◌, length};
ghost use Rattle.avg_decode.specs.Word.{word_of};
ghost use Rattle.board_debug.specs.Columns.{address_head, column};
ghost use Rattle.board_debug.specs.Statements.{statement_size, vdis_line, words_text};

use crate::columns::{HEAD, address_line};
use crate::operand::with_word;
use crate::statement::with_statement;
use avg_decode::{VgWord, word_kind};
use text_line::Line;

/// The places of the words of an instruction, behind the blank after its address.
pub const WORDS: usize = 10;

/// An address and the words of an instruction, in their column.
#[tactic(auto, using(std::proofs::Common::append_assoc))]
fn words_line(address: u16, kind: VgWord, word: u16, second: u16) -> Line
    ensures text { result ≡ address_head address ++ 32 ∷ column 10 (words_text kind word second) }
    ensures len { length result ≡ 16 }
{
    let line = with_word(address_line(address).text(b" "), word).text(b" ");
    match kind {
        VgWord::Vctr { .. } => with_word(line, second).text(b" "),
        _ => line.pad_to(HEAD + 1 + WORDS),
    }
}

/// How many bytes an instruction has.
fn size(kind: VgWord) -> u8
    ensures { result ≡ statement_size kind }
{
    match kind {
        VgWord::Vctr { .. } => 4,
        _ => 2,
    }
}

/// The line of the instruction at an address that begins with this word, with the word after it,
/// and how many bytes it has.
pub fn vdis_line(address: u16, word: u16, second: u16) -> (Line, u8)
    ensures line { result.0 ≡ vdis_line address word second }
    ensures size { result.1 ≡ statement_size (word_of word) }
{
    let kind = word_kind(word);
    let line = words_line(address, kind, word, second).text(b" ");
    (with_statement(line, kind, second).end(), size(kind))
}
