ghost use Rattle.std.specs.Prelude.{◌≡◌, ◌≢◌, ◌<◌, ◌∷◌, ◌++◌, [], All, MatchOption, length};
ghost use Rattle.plain_text.specs.Lines.{lines_of, words_of};

/// What stands before the first such byte, and after it, where there is one.
fn part(bytes: &[u8], separator: u8) -> (&[u8], Option<&[u8]>)
    ensures first { All (λ byte. byte ≢ separator) result.0.now }
    ensures rest { MatchOption result.1 (bytes.now ≡ result.0.now) (λ rest. bytes.now ≡ result.0.now ++ separator ∷ rest.now) }
{
    match bytes.iter().position(|byte| *byte == separator) {
        Some(end) => (&bytes[..end], Some(&bytes[end + 1..])),
        None => (bytes, None),
    }
}

/// The first line of a text, without its LF, and what stands after it. The LF may be missing after
/// the last line.
#[tactic(auto, using(crate::proofs::Parting::parting))]
pub fn read_line(text: &[u8]) -> (&[u8], &[u8])
    requires { 0 < length text.now }
    ensures lines { lines_of text.now ≡ result.0.now ∷ lines_of result.1.now }
    ensures shorter { length result.1.now < length text.now }
{
    let (line, rest) = part(text, b'\n');
    match rest {
        Some(rest) => (line, rest),
        None => (line, &[]),
    }
}

/// The first word of a line, and what stands after its space, where it has one.
#[tactic(auto, using(crate::proofs::Parting::parting))]
pub fn read_word(line: &[u8]) -> (&[u8], Option<&[u8]>)
    ensures { MatchOption result.1 (words_of line.now ≡ result.0.now ∷ []) (λ rest. words_of line.now ≡ result.0.now ∷ words_of rest.now) }
{
    part(line, b' ')
}
