ghost use Rattle.std.specs.Prelude.{◌≡◌, ◌==◌, ◌&&◌, not};
ghost use Rattle.asm_text.specs.Pieces.{takes_word};
ghost use Rattle.asm_core.specs.Words.{is_number_byte, is_plain, word_by};

use crate::Name;
use asm_text::{is_register, number, takes_word};

/// A token with what it says. A name is with the dot that may stand before it.
#[derive(Drop)]
pub enum Word<'a> {
    /// A name.
    Name(Name<'a>),
    /// The value of a number.
    Number(u16),
    /// One of the punctuation marks.
    Mark(u8),
}

impl<'a> Word<'a> {
    ghost use Rattle.std.specs.Prelude.{◌≡◌};
    ghost use Rattle.asm_core.specs.Words.{is_mark, plain_name};

    /// The name that a word is, where it may have a value.
    pub fn plain_name(&self) -> Option<Name<'a>>
        ensures { result ≡ plain_name self.now }
    {
        match self {
            Word::Name(name) if is_plain(name.bytes()) => Some(Name::new(name.bytes())),
            _ => None,
        }
    }

    /// Whether a word is this punctuation mark.
    pub fn is_mark(&self, mark: u8) -> bool
        ensures { result ≡ is_mark mark self.now }
    {
        match self {
            Word::Mark(byte) => *byte == mark,
            _ => false,
        }
    }
}

/// Whether a number begins with this byte.
fn is_number_start(byte: u8) -> bool
    ensures { result ≡ is_number_byte byte }
{
    matches!(byte, b'0'..=b'9' | b'$' | b'%')
}

/// The word that a token's bytes are, by the first of them.
pub(crate) fn read_word<'a>(first: u8, piece: &'a [u8]) -> Word<'a>
    ensures { result ≡ word_by first piece.now }
{
    if is_number_start(first) {
        Word::Number(number(piece).unwrap_or(0))
    } else if takes_word(first) {
        Word::Name(Name::new(piece))
    } else {
        Word::Mark(first)
    }
}

/// Whether a token that begins with this byte is this punctuation mark.
pub(crate) fn is_mark_byte(mark: u8, byte: u8) -> bool
    ensures { result ≡ (byte == mark && not (takes_word byte)) }
{
    byte == mark && !takes_word(byte)
}

/// Whether a name may have a value, which one behind a dot and a register may not.
pub fn is_plain(name: &[u8]) -> bool
    ensures { result ≡ is_plain name.now }
{
    match name {
        [] | [b'.', ..] => false,
        _ => !is_register(name),
    }
}
