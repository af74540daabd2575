ghost use Rattle.std.specs.Prelude.{◌≡◌, ◌+◌, ◌-◌, ◌<◌, ◌≤◌, [], ◌∷◌, ◌++◌, length, max, replicate, decimal};
ghost use Rattle.std.specs.Fmt.{signed_decimal};
ghost use Rattle.text_line.specs.declared.line.TheConstants.{LONGEST};
ghost use Rattle.text_line.specs.Words.{hex_byte, hex_word};

use crate::line::{LONGEST, Line};

/// A line by value, put together in one expression.
impl Line {
    /// A line that begins with a letter and a number.
    pub fn new(letter: u8, n: u64) -> Line
        ensures text { result ≡ letter ∷ 32 ∷ decimal n }
        ensures len { length result ≤ 22 }
    {
        let mut line = Line::empty();
        line.begin(letter, n);
        line
    }

    /// A line that begins with a word.
    pub fn of(word: &str) -> Line
        requires { length word.now ≤ LONGEST }
        ensures text { result ≡ word.now }
        ensures len { length result ≡ length word.now }
    {
        Line::empty().text(word.as_bytes())
    }

    /// One byte more.
    fn byte(mut self, byte: u8) -> Line
        requires { length self < LONGEST }
        ensures text { result ≡ self ++ byte ∷ [] }
        ensures len { length result ≡ length self + 1 }
    {
        self.put_byte(byte);
        self
    }

    /// A piece of text more.
    pub fn text(mut self, text: &[u8]) -> Line
        requires { length self + length text.now ≤ LONGEST }
        ensures text { result ≡ self ++ text.now }
        ensures len { length result ≡ length self + length text.now }
    {
        self.put_text(text);
        self
    }

    /// A blank and a word.
    pub fn word(self, word: &str) -> Line
        requires { length self + 1 + length word.now ≤ LONGEST }
        ensures text { result ≡ self ++ 32 ∷ word.now }
        ensures len { length result ≡ length self + 1 + length word.now }
    {
        self.byte(b' ').text(word.as_bytes())
    }

    /// A blank and a number below 256.
    pub fn small(mut self, n: u8) -> Line
        requires { length self + 4 ≤ LONGEST }
        ensures text { result ≡ self ++ 32 ∷ decimal n }
        ensures len { length result ≤ length self + 4 }
    {
        self.put_small(n);
        self
    }

    /// A blank and a number.
    pub fn number(mut self, n: u64) -> Line
        requires { length self + 21 ≤ LONGEST }
        ensures text { result ≡ self ++ 32 ∷ decimal n }
        ensures len { length result ≤ length self + 21 }
    {
        self.put_number(n);
        self
    }

    /// A blank and a number, with `-` where it is negative.
    pub fn signed(mut self, n: i32) -> Line
        requires { length self + 12 ≤ LONGEST }
        ensures text { result ≡ self ++ 32 ∷ signed_decimal n }
        ensures len { length result ≤ length self + 12 }
    {
        self.put_signed(n);
        self
    }

    /// Two hexadecimal digits.
    pub fn hex(mut self, byte: u8) -> Line
        requires { length self + 2 ≤ LONGEST }
        ensures text { result ≡ self ++ hex_byte byte }
        ensures len { length result ≡ length self + 2 }
    {
        self.put_hex(byte);
        self
    }

    /// Blanks up to this place, where the line isn't as long yet.
    pub fn pad_to(self, place: usize) -> Line
        requires { place ≤ LONGEST }
        ensures text { result ≡ self ++ replicate (place - length self) 32 }
        ensures len { length result ≡ max (length self) place }
    {
        let blanks = [b' '; LONGEST];
        let missing = place.saturating_sub(self.len());
        self.text(&blanks[..missing])
    }

    /// A blank and a byte as two hexadecimal digits.
    pub fn hex_byte(mut self, byte: u8) -> Line
        requires { length self + 3 ≤ LONGEST }
        ensures text { result ≡ self ++ 32 ∷ hex_byte byte }
        ensures len { length result ≡ length self + 3 }
    {
        self.put_hex_byte(byte);
        self
    }

    /// A blank and a word as four hexadecimal digits.
    pub fn hex_word(self, word: u16) -> Line
        requires { length self + 5 ≤ LONGEST }
        ensures text { result ≡ self ++ 32 ∷ hex_word word }
        ensures len { length result ≡ length self + 5 }
    {
        let [high, low] = word.to_be_bytes();
        self.byte(b' ').hex(high).hex(low)
    }

    /// The bytes of the line with LF at its end.
    pub fn end(self) -> Line
        requires { length self < LONGEST }
        ensures { result ≡ self ++ 10 ∷ [] }
    {
        self.byte(b'\n')
    }
}
