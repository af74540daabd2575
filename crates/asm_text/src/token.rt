/// The kind of a token.
///
/// A word with a `.` before it is a `Name` too, as are the words `a`, `x` and `y`.
#[derive(Clone, Copy, Debug, PartialEq, Eq)]
pub enum Kind {
    /// A word, with the `.` that may stand before it.
    Name,
    /// A number in one of the three bases.
    Number,
    /// One of the ten marks.
    Punctuation,
}

/// A token of a source: its text is the slice from `start` up to `end`, counted in bytes of the
/// source from 0, and `line` is the number of its line, counted from 1.
#[derive(Clone, Copy, Debug, PartialEq, Eq)]
pub struct Token {
    pub kind: Kind,
    pub start: usize,
    pub end: usize,
    pub line: u32,
}
