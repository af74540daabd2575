use asm_text::{Kind, Token, push_line, split_line, tokens};
use std::test::Fail;

/// A source of four lines: a comment with a byte that begins no token, an empty line, CR before LF,
/// and no LF at the end.
const SOURCE: &str = "start: lda #$1F ; a@b\r\n\n\t.Byte %101-a,(_b2)\r\nZz=<65535>+0";

/// The tokens of `SOURCE`: kind, place and text, and line.
const TOKENS: [(Kind, usize, &str, u32); 20] = [
    (Kind::Name, 0, "start", 1),
    (Kind::Punctuation, 5, ":", 1),
    (Kind::Name, 7, "lda", 1),
    (Kind::Punctuation, 11, "#", 1),
    (Kind::Number, 12, "$1F", 1),
    (Kind::Name, 25, ".Byte", 3),
    (Kind::Number, 31, "%101", 3),
    (Kind::Punctuation, 35, "-", 3),
    (Kind::Name, 36, "a", 3),
    (Kind::Punctuation, 37, ",", 3),
    (Kind::Punctuation, 38, "(", 3),
    (Kind::Name, 39, "_b2", 3),
    (Kind::Punctuation, 42, ")", 3),
    (Kind::Name, 45, "Zz", 4),
    (Kind::Punctuation, 47, "=", 4),
    (Kind::Punctuation, 48, "<", 4),
    (Kind::Number, 49, "65535", 4),
    (Kind::Punctuation, 54, ">", 4),
    (Kind::Punctuation, 55, "+", 4),
    (Kind::Number, 56, "0", 4),
];

#[test]
fn a_source_has_these_tokens_with_their_places_and_lines(rt: HostRuntime) -> Result<(), Fail> {
    let found = tokens(rt.alloc(), SOURCE.as_bytes())?;
    assert_eq!(rt; found.len(), TOKENS.len());
    for (token, (kind, start, text, line)) in found.iter().zip(TOKENS.iter()) {
        assert_eq!(rt;
            (token.kind, token.start, token.line),
            (*kind, *start, *line)
        );
        assert_eq!(rt;
            SOURCE.as_bytes().get(token.start..token.end),
            Some(text.as_bytes())
        );
    }
    Ok(())
}

#[test]
fn the_tokens_of_a_line_come_after_those_that_are_there(rt: HostRuntime) -> Result<(), Fail> {
    let (first, after) = split_line(b"a=1 ; one\n  b");
    let mut found = Vec::new(rt.alloc());
    push_line(&mut found, first, 1, 0)?;
    push_line(&mut found, after, 2, first.len())?;
    assert_eq!(rt; (found.len(), first.len()), (4, 10));
    let last = Token {
        kind: Kind::Name,
        start: 12,
        end: 13,
        line: 2,
    };
    assert_eq!(rt; found[3], last);
    Ok(())
}
