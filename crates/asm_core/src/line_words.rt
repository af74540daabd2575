ghost use Rattle.std.specs.Prelude.{◌≡◌, ◌==◌, ◌+◌, ◌<◌, ◌∷◌, [], true, false, not, length, drop, slice_index_or, Some, None, IfNone, IfSome, if◌then◌else◌};
ghost use Rattle.std.specs.List.{list_all, position};
ghost use Rattle.std.specs.Option.{option_map_or};
ghost use Rattle.asm_core.specs.Words.{before_close, begins_blank, begins_with, is_blank_byte, items_of, words_in};

use crate::Word;
use crate::word::{is_mark_byte, read_word};
use asm_text::split_piece;
use std::marker::Model;

/// Whether a blank begins with this byte.
fn is_blank_byte(byte: u8) -> bool
    ensures { result ≡ is_blank_byte byte }
{
    matches!(byte, b' ' | b'\t' | b'\n' | b'\r')
}

/// The code behind the blanks at its front.
#[tactic(auto, using(crate::proofs::WordPieces::blanks))]
fn after_blanks(code: &[u8]) -> &[u8]
    ensures words { words_in result.now ≡ words_in code.now }
    ensures front { begins_blank result.now ≡ false }
{
    let mut rest = code;
    'blanks: while let [first, after @ ..] = rest {
        if !is_blank_byte(*first) {
            return rest;
        }
        rest = after;
    }
    rest
}

/// The words of a part of a line. They are read from its text as they are wanted, and take no
/// memory.
#[derive(Drop)]
pub struct Words<'a> {
    code: &'a [u8],
}

impl<'a> Model for Words<'a> {
    ghost use Rattle.std.specs.Prelude.{List};
    ghost use Rattle.asm_core.specs.declared.word.Word.{Word};
    ghost use Rattle.asm_core.specs.Words.{words_in};

    ghost Value = { List Word };

    ghost view = { λ words. words_in words.code.now };
}

impl<'a> Words<'a> {
    ghost use Rattle.std.specs.Prelude.{◌≡◌, ◌↔◌, ◌∷◌, [], true};
    ghost use Rattle.std.specs.Option.{option_map_or};
    ghost use Rattle.asm_core.specs.Words.{words_in};

    /// The words of a line's code, or of a part of it.
    pub fn new(code: &'a [u8]) -> Words<'a>
        ensures { result ≡ words_in code.now }
    {
        Words { code }
    }

    /// The same words.
    pub fn copied(&self) -> Words<'a>
        ensures { result ≡ self.now }
    {
        Words { code: self.code }
    }

    /// The first word and those behind it.
    #[tactic(auto, using(crate::proofs::WordPieces::words))]
    pub fn split_first(&self) -> Option<(Word<'a>, Words<'a>)>
        ensures { self.now ≡ option_map_or (λ split. split.0 ∷ split.1) result [] }
    {
        let code = after_blanks(self.code);
        let first = *code.first()?;
        let (piece, after) = split_piece(code);
        Some((read_word(first, piece), Words::new(after)))
    }

    /// How many terms a sum of these words has: one more than there are signs. It says only how
    /// much memory to take at once, so no clause speaks of it.
    pub(crate) fn term_count(&self) -> usize {
        let signs = self
            .code
            .iter()
            .filter(|byte| matches!(**byte, b'+' | b'-'));
        signs.count().min(self.code.len() / 2) + 1
    }

    /// Whether there is no word.
    #[tactic(auto, using(crate::proofs::WordPieces::blanks))]
    pub fn is_empty(&self) -> bool
        ensures { (result ≡ true) ↔ (self.now ≡ []) }
    {
        after_blanks(self.code).is_empty()
    }
}

/// Whether the first of these words is this punctuation mark.
#[tactic(auto, using(crate::proofs::WordPieces::words))]
pub fn begins_with(words: &Words, mark: u8) -> bool
    ensures { result ≡ begins_with mark words.now }
{
    match after_blanks(words.code) {
        [first, ..] => is_mark_byte(mark, *first),
        [] => false,
    }
}

/// The words behind the first, where that is this punctuation mark.
#[tactic(auto, using(crate::proofs::WordPieces::words))]
pub fn after_mark<'a>(words: &Words<'a>, mark: u8) -> Option<Words<'a>>
    ensures { result ≡ (if begins_with mark words.now then Some (drop 1 words.now) else None) }
{
    match after_blanks(words.code) {
        [first, rest @ ..] if is_mark_byte(mark, *first) => Some(Words::new(rest)),
        _ => None,
    }
}

/// The place of the first such byte.
fn find_first(code: &[u8], mark: u8) -> Option<usize>
    ensures { result ≡ position (λ byte. byte == mark) code.now }
{
    code.iter().position(|byte| *byte == mark)
}

/// The place of the last such byte.
fn find_last(code: &[u8], mark: u8) -> Option<usize>
    ensures none { IfNone result (list_all (λ byte. not (byte == mark)) code.now ≡ true) }
    ensures some { IfSome result (λ place. (place < length code.now) × (slice_index_or code.now place 0 ≡ mark) × (list_all (λ byte. not (byte == mark)) (drop (place + 1) code.now) ≡ true)) }
{
    let mut end = code.len();
    'bytes: while end > 0 {
        end -= 1;
        if code[end] == mark {
            return Some(end);
        }
    }
    None
}

/// The first item of a list and, where a comma ends it, what stands behind that.
#[tactic(auto, using(crate::proofs::Items::commas))]
pub fn split_item<'a>(words: &Words<'a>) -> (Words<'a>, Option<Words<'a>>)
    ensures items { items_of words.now ≡ result.0 ∷ option_map_or (λ rest. items_of rest) result.1 [] }
    ensures shorter { IfSome result.1 (λ rest. length rest < length words.now) }
{
    match find_first(words.code, b',') {
        Some(end) => (
            Words::new(&words.code[..end]),
            Some(Words::new(&words.code[end + 1..])),
        ),
        None => (words.copied(), None),
    }
}

/// The words before the last, where that is `)`.
#[tactic(auto, using(crate::proofs::Items::closes))]
pub fn before_close<'a>(words: &Words<'a>) -> Option<Words<'a>>
    ensures { result ≡ before_close words.now }
{
    let end = find_last(words.code, b')')?;
    let behind = Words::new(&words.code[end + 1..]);
    if behind.is_empty() {
        Some(Words::new(&words.code[..end]))
    } else {
        None
    }
}
