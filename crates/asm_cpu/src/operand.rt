ghost use Rattle.std.specs.Prelude.{◌≡◌};
ghost use Rattle.asm_cpu.specs.Operands.{closes_x, indexed_shape, indirect_shape, is_letter, is_register, shape_of, whole_shape};

use asm_core::{Word, Words, after_mark, before_close, split_item};

/// How an operand with an expression `e` is written.
#[derive(Clone, Copy, Debug, PartialEq, Eq)]
pub(crate) enum Shape {
    /// `#e`
    Immediate,
    /// `e`
    Direct,
    /// `e,x`
    IndexedX,
    /// `e,y`
    IndexedY,
    /// `(e)`
    Indirect,
    /// `(e,x)`
    IndirectX,
    /// `(e),y`
    IndirectY,
}

/// Whether a word is this letter, of either case.
fn is_letter(word: &Word, letter: u8) -> bool
    ensures { result ≡ is_letter letter word.now }
{
    match word {
        Word::Name(name) => name.bytes().eq_ignore_ascii_case(&[letter]),
        _ => false,
    }
}

/// Whether the words are this letter alone, of either case.
pub(crate) fn is_register(words: &Words, letter: u8) -> bool
    ensures { result ≡ is_register letter words.now }
{
    match words.split_first() {
        Some((word, rest)) => is_letter(&word, letter) && rest.is_empty(),
        None => false,
    }
}

/// Whether the words are `x` and `)`.
fn closes_x(words: &Words) -> bool
    ensures { result ≡ closes_x words.now }
{
    match before_close(words) {
        Some(inner) => is_register(&inner, b'x'),
        None => false,
    }
}

/// The shape of an operand without a comma.
fn whole_shape<'a>(words: &Words<'a>) -> Option<(Shape, Words<'a>)>
    ensures { result ≡ whole_shape words.now }
{
    if let Some(rest) = after_mark(words, b'#') {
        Some((Shape::Immediate, rest))
    } else if let Some(rest) = after_mark(words, b'(') {
        Some((Shape::Indirect, before_close(&rest)?))
    } else {
        Some((Shape::Direct, words.copied()))
    }
}

/// The shape of an operand behind its `(`, up to its comma and behind that.
fn indirect_shape<'a>(words: &Words<'a>, index: &Words) -> Option<(Shape, Words<'a>)>
    ensures { result ≡ indirect_shape words.now index.now }
{
    if closes_x(index) {
        Some((Shape::IndirectX, words.copied()))
    } else if is_register(index, b'y') {
        Some((Shape::IndirectY, before_close(words)?))
    } else {
        None
    }
}

/// The shape of an operand up to its comma and behind that.
fn indexed_shape<'a>(words: &Words<'a>, index: &Words) -> Option<(Shape, Words<'a>)>
    ensures { result ≡ indexed_shape words.now index.now }
{
    if let Some(rest) = after_mark(words, b'(') {
        indirect_shape(&rest, index)
    } else if is_register(index, b'x') {
        Some((Shape::IndexedX, words.copied()))
    } else if is_register(index, b'y') {
        Some((Shape::IndexedY, words.copied()))
    } else {
        None
    }
}

/// The shape of an operand, and the words of its expression.
#[tactic(auto, using(crate::proofs::Operands::shapes))]
pub(crate) fn read_shape<'a>(words: &Words<'a>) -> Option<(Shape, Words<'a>)>
    ensures { result ≡ shape_of words.now }
{
    match split_item(words) {
        (item, None) => whole_shape(&item),
        (item, Some(rest)) => match split_item(&rest) {
            (index, None) => indexed_shape(&item, &index),
            (_, Some(_)) => None,
        },
    }
}
