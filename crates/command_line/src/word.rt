ghost use Rattle.std.specs.Prelude.{◌≡◌};
ghost use Rattle.std.specs.Option.{option_map};
ghost use Rattle.command_line.specs.Words.{is_dashed, name_of};

/// Whether a word begins with two dashes.
pub fn is_dashed(word: &str) -> bool
    ensures { result ≡ is_dashed word.now }
{
    word.as_bytes().starts_with(b"--")
}

/// A word as a file's name.
pub fn read_name(word: &str) -> Option<&str>
    ensures { option_map (λ name. name.now) result ≡ name_of word.now }
{
    if word.is_empty() || is_dashed(word) {
        return None;
    }
    Some(word)
}
