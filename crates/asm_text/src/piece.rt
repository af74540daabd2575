ghost use Rattle.std.specs.Prelude.{◌≡◌, ◌<◌, ◌≤◌, ◌∷◌, ◌++◌, drop, length, not, take};
ghost use Rattle.std.specs.List.{list_all, position};
ghost use Rattle.asm_text.specs.Pieces.{ends_line, is_blank, is_dotted_name, is_mark, is_name, is_name_start, is_number_start, is_register, is_word_byte, kind_of, pieces_of, takes_word};

use crate::fault::AsmCause;
use crate::numeral::number;
use crate::token::Kind;

/// Whether a byte is a letter, a digit or `_`.
fn is_word_byte(byte: u8) -> bool
    ensures { result ≡ is_word_byte byte }
{
    byte.is_ascii_alphanumeric() || byte == b'_'
}

/// Whether letters, digits and `_` behind this byte belong to its piece.
pub fn takes_word(byte: u8) -> bool
    ensures { result ≡ takes_word byte }
{
    is_word_byte(byte) || matches!(byte, b'$' | b'%' | b'.')
}

/// The place of the first byte that is no letter, no digit and no `_`.
fn find_word_end(bytes: &[u8]) -> Option<usize>
    ensures { result ≡ position (λ byte. not (is_word_byte byte)) bytes.now }
{
    bytes.iter().position(|byte| !is_word_byte(*byte))
}

/// Whether code begins with CR and LF.
fn ends_line(code: &[u8]) -> bool
    ensures { result ≡ ends_line code.now }
{
    matches!(code, [b'\r', b'\n', ..])
}

/// How many bytes of code belong to its first piece.
#[tactic(auto, using(crate::proofs::Parting::pieces))]
fn piece_len(code: &[u8]) -> usize
    requires { 0 < length code.now }
    ensures some { 0 < result }
    ensures within { result ≤ length code.now }
    ensures pieces { pieces_of code.now ≡ take result code.now ∷ pieces_of (drop result code.now) }
{
    if takes_word(code[0]) {
        return match find_word_end(&code[1..]) {
            Some(end) => end + 1,
            None => code.len(),
        };
    }
    if ends_line(code) { 2 } else { 1 }
}

/// The first piece of a line's code, and what stands after it.
pub fn split_piece(code: &[u8]) -> (&[u8], &[u8])
    requires { 0 < length code.now }
    ensures pieces { pieces_of code.now ≡ result.0.now ∷ pieces_of result.1.now }
    ensures whole { code.now ≡ result.0.now ++ result.1.now }
    ensures some { 0 < length result.0.now }
{
    code.split_at(piece_len(code))
}

/// Whether a piece is a blank.
fn is_blank(piece: &[u8]) -> bool
    ensures { result ≡ is_blank piece.now }
{
    matches!(piece, b" " | b"\t" | b"\n" | b"\r\n")
}

/// Whether a piece is one of the punctuation marks.
fn is_mark(piece: &[u8]) -> bool
    ensures { result ≡ is_mark piece.now }
{
    matches!(
        piece,
        [b':' | b'=' | b'#' | b'(' | b')' | b',' | b'<' | b'>' | b'+' | b'-']
    )
}

/// Whether a word is `a`, `x` or `y` of either case, which are no names.
pub fn is_register(word: &[u8]) -> bool
    ensures { result ≡ is_register word.now }
{
    matches!(word, [b'a' | b'A' | b'x' | b'X' | b'y' | b'Y'])
}

/// Whether a name begins with this byte.
fn is_name_start(byte: u8) -> bool
    ensures { result ≡ is_name_start byte }
{
    byte.is_ascii_alphabetic() || byte == b'_'
}

/// Whether all bytes are letters, digits or `_`.
fn is_word(bytes: &[u8]) -> bool
    ensures { result ≡ list_all (λ byte. is_word_byte byte) bytes.now }
{
    bytes.iter().all(|byte| is_word_byte(*byte))
}

/// Whether a piece is a name.
fn is_name(piece: &[u8]) -> bool
    ensures { result ≡ is_name piece.now }
{
    match piece {
        [first, rest @ ..] => is_name_start(*first) && is_word(rest) && piece.len() <= 32,
        [] => false,
    }
}

/// Whether a piece is a `.` with a name directly after it.
fn is_dotted_name(piece: &[u8]) -> bool
    ensures { result ≡ is_dotted_name piece.now }
{
    match piece {
        [b'.', name @ ..] => is_name(name) && !is_register(name),
        _ => false,
    }
}

/// Whether a piece begins as a number does.
fn is_number_start(piece: &[u8]) -> bool
    ensures { result ≡ is_number_start piece.now }
{
    matches!(piece, [b'0'..=b'9' | b'$' | b'%', ..])
}

/// The kind of a piece, none for a blank, or what is wrong with it.
#[tactic(auto, unfolding(crate::specs::Pieces::kind_of))]
pub fn read_kind(piece: &[u8]) -> Result<Option<Kind>, AsmCause>
    ensures { result ≡ kind_of piece.now }
{
    if is_blank(piece) {
        Ok(None)
    } else if is_mark(piece) {
        Ok(Some(Kind::Punctuation))
    } else if is_name(piece) || is_dotted_name(piece) {
        Ok(Some(Kind::Name))
    } else if !is_number_start(piece) {
        Err(AsmCause::BadToken)
    } else if number(piece).is_some() {
        Ok(Some(Kind::Number))
    } else {
        Err(AsmCause::BadNumber)
    }
}
