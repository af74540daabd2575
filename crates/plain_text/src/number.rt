ghost use Rattle.std.specs.Prelude.{◌≡◌};
ghost use Rattle.plain_text.specs.Numbers.{decimal_of, digit_of, value_of};

/// The most digits of a decimal number.
pub const DIGITS: usize = 15;

/// The number of a word of 1 to 15 decimal digits.
#[tactic(auto, using(crate::proofs::Digits::digits))]
pub fn read_digits(word: &[u8]) -> Option<u64>
    ensures { result ≡ decimal_of word.now }
{
    if word.is_empty() || word.len() > DIGITS {
        return None;
    }
    let mut number = 0;
    for digit in word {
        if !digit.is_ascii_digit() {
            return None;
        }
        number = 10 * number + (*digit - b'0') as u64;
    }
    Some(number)
}

/// The value of a hexadecimal digit of either case.
fn read_digit(byte: u8) -> Option<u8>
    ensures { result ≡ digit_of byte }
{
    match byte {
        b'0'..=b'9' => Some(byte - b'0'),
        b'A'..=b'F' => Some(byte - b'A' + 10),
        b'a'..=b'f' => Some(byte - b'a' + 10),
        _ => None,
    }
}

/// A byte of two hexadecimal digits, each of either case.
pub fn read_value(word: &[u8]) -> Option<u8>
    ensures { result ≡ value_of word.now }
{
    match word {
        [high, low] => Some(16 * read_digit(*high)? + read_digit(*low)?),
        _ => None,
    }
}
