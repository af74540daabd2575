ghost use Rattle.std.specs.Prelude.{◌≡◌, ◌≤◌};
ghost use Rattle.asm_text.specs.Numbers.{digits_in, number_of};

/// The number that digits of a base write.
#[tactic(auto, using(crate::proofs::Numerals::digits))]
fn read_digits(base: u32, digits: &[u8]) -> Option<u16>
    requires low { 2 ≤ base }
    requires high { base ≤ 16 }
    ensures { result ≡ digits_in base digits.now }
{
    if digits.is_empty() {
        return None;
    }
    let mut value = 0;
    for byte in digits {
        value = value * base + (*byte as char).to_digit(base)?;
        if value > 65_535 {
            return None;
        }
    }
    Some(value as u16)
}

/// The value of a number's text, which is in base 10, behind `$` in base 16 with digits of either
/// case, or behind `%` in base 2.
///
/// A text without digits has none, and neither has one with a stranger among them or one whose
/// value doesn't fit 16 bits.
pub fn number(text: &[u8]) -> Option<u16>
    ensures { result ≡ number_of text.now }
{
    match text {
        [b'$', digits @ ..] => read_digits(16, digits),
        [b'%', digits @ ..] => read_digits(2, digits),
        _ => read_digits(10, text),
    }
}
