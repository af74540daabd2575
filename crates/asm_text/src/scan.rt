ghost use Rattle.std.specs.Prelude.{◌≡◌, ◌≢◌, ℕ, ◌+◌, ◌^◌, ◌<◌, ◌↔◌, All, IfErr, IfOk, OnOk, length};
ghost use Rattle.asm_text.specs.Answers.{Answers};
ghost use Rattle.asm_text.specs.Spans.{EndsBy, IsAccounted, IsNumbered, IsTokenOf, Refused, StandIn};
ghost use Rattle.asm_text.specs.Tokens.{line_tokens, onto, tokens_of};

use crate::fault::AsmFault;
use crate::line::{code_of, split_line};
use crate::piece::{read_kind, split_piece};
use crate::token::Token;
use std::alloc::Global;

/// The most bytes that a source has.
pub const TEXT_LIMIT: usize = 1_048_576;

/// Appends the tokens of one line, which may end with its LF. Its first byte has the place `start`
/// in the source, counted in bytes, and its number is `line`.
///
/// It is refused for its first bad token, or because memory ran out; then `tokens` is only to be
/// dropped.
#[tactic(auto, using(crate::proofs::LinePieces::pieces), unfolding(crate::specs::Tokens::piece_tokens))]
pub fn push_line(
    tokens: &mut Vec<Token>,
    text: &[u8],
    line: u32,
    start: usize,
) -> Result<(), AsmFault>
    requires { start + length text.now < 2 ^ 64 }
    ensures tokens { Answers (λ _. tokens.new.items) result (onto tokens.old.items (line_tokens line start text.now)) }
    ensures line { result ≢ Err AsmFault.TooLong }
    ensures spans { All (EndsBy start) tokens.old.items → OnOk result (All (EndsBy (start + length text.now)) tokens.new.items) }
{
    let mut rest = code_of(text);
    let mut place = start;
    'pieces: while !rest.is_empty() {
        let (piece, after) = split_piece(rest);
        let end = place + piece.len();
        match read_kind(piece) {
            Ok(None) => {}
            Ok(Some(kind)) => tokens
                .push(Token {
                    kind,
                    start: place,
                    end,
                    line,
                })
                .map_err(|_| AsmFault::OutOfMemory)?,
            Err(cause) => return Err(AsmFault::Line { line, cause }),
        }
        place = end;
        rest = after;
    }
    Ok(())
}

/// Reads the tokens of a source, line by line from its front to its end.
///
/// Words are names: they begin with a letter or an underscore, go on with these and with digits,
/// and are 32 characters long at most. The letters of the three registers count as names, and so
/// does a word behind a dot, unless it is a register's letter. Numbers are written in base 10,
/// behind `$` in base 16 and behind `%` in base 2, and fit 16 bits. Neither ends while such
/// characters go on, so `5x` is one bad number, and no number before a name. The marks are `:`,
/// `=`, `#`, `(`, `)`, `,`, `<`, `>`, `+` and `-`. Tokens may be parted by spaces, tabs and the end
/// of a line, which is LF with or without a CR before it. From a `;` to the end of its line, all is
/// a comment.
///
/// The text has at most `TEXT_LIMIT` bytes. Memory is taken for the tokens alone.
#[tactic(auto, using(crate::proofs::TextLines::lines))]
pub fn tokens(alloc: Global, text: &[u8]) -> Result<Vec<Token>, AsmFault>
    ensures tokens { Answers (λ tokens. tokens.items) result (tokens_of text.now) }
    ensures too_long { (result ≡ Err AsmFault.TooLong) ↔ (TEXT_LIMIT < length text.now) }
    ensures spans { IfOk result (λ tokens. StandIn text.now 0 (length text.now) tokens.items) }
    ensures lines { IfOk result (λ tokens. All (IsNumbered text.now) tokens.items) }
    ensures each { IfOk result (λ tokens. All (IsTokenOf text.now) tokens.items) }
    ensures all { IfOk result (λ tokens. (place : ℕ) → place < length text.now → IsAccounted text.now tokens.items place) }
    ensures refused { IfErr result (Refused text.now) }
{
    if text.len() > TEXT_LIMIT {
        return Err(AsmFault::TooLong);
    }
    let mut tokens = Vec::new(alloc);
    let mut rest = text;
    let mut place = 0;
    let mut line = 1;
    'lines: while !rest.is_empty() {
        let (first, after) = split_line(rest);
        push_line(&mut tokens, first, line, place)?;
        place += first.len();
        rest = after;
        line += 1;
    }
    Ok(tokens)
}
