ghost use Rattle.std.specs.Prelude.{◌≡◌, ◌==◌, ◌<◌, ◌≤◌, ◌∷◌, ◌++◌, length};
ghost use Rattle.std.specs.List.{position};
ghost use Rattle.asm_text.specs.Lines.{code_of, lines_with_ends};

/// The place of the first such byte.
fn find(bytes: &[u8], wanted: u8) -> Option<usize>
    ensures { result ≡ position (λ byte. byte == wanted) bytes.now }
{
    bytes.iter().position(|byte| *byte == wanted)
}

/// The first line of a text with the LF that ends it, and what stands after it.
#[tactic(auto, using(crate::proofs::Parting::lines))]
pub fn split_line(text: &[u8]) -> (&[u8], &[u8])
    requires { 0 < length text.now }
    ensures lines { lines_with_ends text.now ≡ result.0.now ∷ lines_with_ends result.1.now }
    ensures whole { text.now ≡ result.0.now ++ result.1.now }
    ensures some { 0 < length result.0.now }
{
    match find(text, b'\n') {
        Some(end) => text.split_at(end + 1),
        None => (text, &[]),
    }
}

/// What stands on a line before its comment.
#[tactic(auto, using(crate::proofs::Parting::comments))]
pub fn code_of(line: &[u8]) -> &[u8]
    ensures code { result.now ≡ code_of line.now }
    ensures shorter { length result.now ≤ length line.now }
{
    match find(line, b';') {
        Some(end) => &line[..end],
        None => line,
    }
}
