//! The lines of a suite, and the pieces that they make.

use crate::stopped::Stopped;
use std::alloc::Global;

/// What a suite is made of, from the whole down to the line.
#[derive(Clone, Copy)]
pub enum Level {
    /// A row, or what several rows begin with.
    Block,
    /// A file, a change of one, or a command with what it is to give.
    Step,
    /// A part of a step: a line and the content after it.
    Part,
}

/// What a line is.
#[derive(Clone, Copy)]
pub enum Word {
    Row,
    Given,
    With,
    Once,
    File,
    Patch,
    Length,
    Copy,
    Command,
    Out,
    Sum,
    Fail,
    Status,
    Note,
    Store,
    At,
    Same,
    Keep,
    Text,
    /// Text, bytes, a number between two, a file's bytes, or lines of any text.
    Content,
    Malformed,
}

/// The first words of the lines that are no content.
const WORDS: [(&str, Word); 19] = [
    ("row", Word::Row),
    ("given", Word::Given),
    ("with", Word::With),
    ("once", Word::Once),
    ("file", Word::File),
    ("patch", Word::Patch),
    ("length", Word::Length),
    ("copy", Word::Copy),
    ("$", Word::Command),
    ("out", Word::Out),
    ("sum", Word::Sum),
    ("fail", Word::Fail),
    ("status", Word::Status),
    ("note", Word::Note),
    ("store", Word::Store),
    ("at", Word::At),
    ("same", Word::Same),
    ("keep", Word::Keep),
    ("text", Word::Text),
];

/// The first word of a line, and the rest of it after a space.
pub fn first_word(line: &str) -> (&str, &str) {
    line.split_once(' ').unwrap_or((line, ""))
}

/// What the first word of a line says.
fn read_word(first: &str) -> Word {
    for (text, word) in &WORDS {
        if *text == first {
            return *word;
        }
    }
    Word::Malformed
}

/// Whether a line is content, by the character that it begins with.
fn is_content(line: &str) -> bool {
    let begins = ["|", "\\", ":", "?", "@"];
    line == "..." || begins.iter().any(|begin| line.starts_with(*begin))
}

/// What a line is.
pub fn word_of(line: &str) -> Word {
    if is_content(line) {
        return Word::Content;
    }
    let (first, _) = first_word(line);
    read_word(first)
}

impl Level {
    /// Whether a line begins a piece of this level.
    fn begins(self, word: Word) -> bool {
        match self {
            Level::Block => matches!(word, Word::Row | Word::Given),
            Level::Step => !word.is_of_step(),
            Level::Part => !matches!(word, Word::Content),
        }
    }
}

impl Word {
    /// Whether a line belongs to the file or the command before it.
    fn is_of_step(self) -> bool {
        !matches!(
            self,
            Word::Row
                | Word::Given
                | Word::With
                | Word::Once
                | Word::File
                | Word::Patch
                | Word::Length
                | Word::Copy
                | Word::Command
                | Word::Malformed
        )
    }
}

/// The lines of a suite, without the empty ones and the comments.
pub fn suite_lines(alloc: Global, text: &str) -> Result<Vec<&str>, Stopped> {
    let mut lines = Vec::new(alloc);
    for line in text.split('\n') {
        if !line.is_empty() && !line.starts_with("#") {
            lines.push(line)?;
        }
    }
    Ok(lines)
}

/// Takes in a piece of some lines.
fn push_piece<'l, 't>(
    lines: &'l [&'t str],
    from: usize,
    to: usize,
    pieces: &mut Vec<&'l [&'t str]>,
) -> Result<(), Stopped> {
    if let Some(piece) = lines.get(from..to) {
        pieces.push(piece)?;
    }
    Ok(())
}

/// The pieces of some lines. What comes before the first that begins one is a piece too.
pub fn pieces<'l, 't>(
    alloc: Global,
    lines: &'l [&'t str],
    level: Level,
) -> Result<Vec<&'l [&'t str]>, Stopped> {
    let mut pieces = Vec::new(alloc);
    let mut from = 0;
    for (i, line) in lines.iter().enumerate() {
        if from < i && level.begins(word_of(line)) {
            push_piece(lines, from, i, &mut pieces)?;
            from = i;
        }
    }
    push_piece(lines, from, lines.len(), &mut pieces)?;
    Ok(pieces)
}
