ghost use Rattle.std.specs.Prelude.{◌≡◌, ◌+◌, ◌<◌, ◌≤◌, [], ◌∷◌, ◌++◌, length, decimal, true};
ghost use Rattle.std.specs.Fmt.{digit_glyph, signed_decimal};
ghost use Rattle.text_line.specs.Words.{four_digits, hex_byte, two_digits};

use itoa::write_digits;
use std::marker::Model;

/// Room for the bytes of any line: a letter, three numbers of up to 20 digits and four of up to 10
/// digits and a sign, each behind a blank, and LF.
pub const LONGEST: usize = 113;

/// No line has more than 113 bytes. It states a law, and does nothing.
pub fn longest_line()
    ensures { LONGEST ≡ 113 }
{}

/// How many bytes `put_piece` copies, whatever the length of the text.
pub const PIECE: usize = 24;

/// A line of text while it is put together: words with a blank between each two, and LF. It takes
/// no memory, and the bytes behind the text are any.
#[derive(Drop)]
pub struct Line {
    bytes: [u8; LONGEST],
    len: usize,
}

impl Model for Line {
    ghost use Rattle.std.specs.Prelude.{ℕ, ◌≤◌, List, take};
    ghost use Rattle.text_line.specs.declared.line.TheConstants.{LONGEST};

    ghost Value = { List ℕ };

    ghost view = { λ l. take l.len l.bytes };

    ghost invariant = { λ l. l.len ≤ LONGEST };
}

/// A line in its place, in which each piece is put behind what stands there.
impl Line {
    /// A line in which nothing stands.
    #[inline]
    pub fn empty() -> Line
        ensures { result ≡ [] }
    {
        Line {
            bytes: [0; LONGEST],
            len: 0,
        }
    }

    /// How many bytes stand here.
    #[inline(always)]
    pub(crate) fn len(&self) -> usize
        ensures { result ≡ length self.now }
    {
        self.len
    }

    /// The bytes put together so far.
    #[inline(always)]
    pub fn bytes(&self) -> &[u8]
        ensures { result.now ≡ self.now }
    {
        &self.bytes[..self.len]
    }

    /// Takes all of the text away.
    #[inline(always)]
    pub fn clear(&mut self)
        ensures { self.new ≡ [] }
    {
        self.len = 0;
    }

    /// Begins anew, with a letter and a number.
    #[inline(always)]
    pub fn begin(&mut self, letter: u8, n: u64)
        ensures text { self.new ≡ letter ∷ 32 ∷ decimal n }
        ensures len { length self.new ≤ 22 }
    {
        self.clear();
        self.put_byte(letter);
        self.put_number(n);
    }

    /// Puts a byte.
    #[inline(always)]
    pub fn put_byte(&mut self, byte: u8)
        requires { length self.old < LONGEST }
        ensures text { self.new ≡ self.old ++ byte ∷ [] }
        ensures len { length self.new ≡ length self.old + 1 }
    {
        self.bytes[self.len] = byte;
        self.len += 1;
    }

    /// Puts a piece of text.
    #[inline(always)]
    pub fn put_text(&mut self, text: &[u8])
        requires { length self.old + length text.now ≤ LONGEST }
        ensures text { self.new ≡ self.old ++ text.now }
        ensures len { length self.new ≡ length self.old + length text.now }
    {
        let end = self.len + text.len();
        self.bytes[self.len..end].copy_from_slice(text);
        self.len = end;
    }

    /// Puts the text of a short line. It copies `PIECE` bytes, since a fixed length is faster.
    #[inline(always)]
    pub fn put_piece(&mut self, piece: &Line)
        requires short { length piece.now ≤ PIECE }
        requires room { length self.old + PIECE ≤ LONGEST }
        ensures text { self.new ≡ self.old ++ piece.now }
        ensures len { length self.new ≡ length self.old + length piece.now }
    {
        self.bytes[self.len..self.len + PIECE].copy_from_slice(&piece.bytes[..PIECE]);
        self.len += piece.len;
    }

    /// Puts the digits of a number, which are written from the last to the first.
    #[inline(always)]
    fn put_digits(&mut self, n: u64)
        requires { length self.old + length (decimal n) ≤ LONGEST }
        ensures text { self.new ≡ self.old ++ decimal n }
        ensures len { length self.new ≡ length self.old + length (decimal n) }
    {
        let end = self.len + count_digits(n);
        write_digits(n, &mut self.bytes, end);
        self.len = end;
    }

    /// Puts a blank and a number below 256.
    #[tactic(auto, using(crate::proofs::DigitLaws::length_small))]
    #[inline(always)]
    pub fn put_small(&mut self, n: u8)
        requires { length self.old + 4 ≤ LONGEST }
        ensures text { self.new ≡ self.old ++ 32 ∷ decimal n }
        ensures len { length self.new ≤ length self.old + 4 }
    {
        self.put_byte(b' ');
        if n < 10 {
            self.put_byte(b'0' + n);
        } else if n < 100 {
            self.put_two(n);
        } else {
            self.put_digits(n.into());
        }
    }

    /// Puts two digits.
    #[inline(always)]
    fn put_two(&mut self, n: u8)
        requires few { n < 100 }
        requires room { length self.old + 2 ≤ LONGEST }
        ensures text { self.new ≡ self.old ++ two_digits n }
        ensures len { length self.new ≡ length self.old + 2 }
    {
        self.put_byte(b'0' + n / 10);
        self.put_byte(b'0' + n % 10);
    }

    /// Puts four digits.
    #[inline(always)]
    pub fn put_four(&mut self, n: u16)
        requires few { n < 10000 }
        requires room { length self.old + 4 ≤ LONGEST }
        ensures text { self.new ≡ self.old ++ four_digits n }
        ensures len { length self.new ≡ length self.old + 4 }
    {
        let (high, low) = ((n / 100) as u8, (n % 100) as u8);
        self.put_text(&[
            b'0' + high / 10,
            b'0' + high % 10,
            b'0' + low / 10,
            b'0' + low % 10,
        ]);
    }

    /// Puts a blank and a number.
    #[tactic(auto, using(crate::proofs::DigitLaws::length_whole))]
    #[inline(always)]
    pub fn put_number(&mut self, n: u64)
        requires { length self.old + 21 ≤ LONGEST }
        ensures text { self.new ≡ self.old ++ 32 ∷ decimal n }
        ensures len { length self.new ≤ length self.old + 21 }
    {
        self.put_byte(b' ');
        self.put_digits(n);
    }

    /// Puts a blank and a number, with `-` where it is negative.
    #[tactic(auto, using(crate::proofs::DigitLaws::length_half))]
    #[inline(always)]
    pub fn put_signed(&mut self, n: i32)
        requires { length self.old + 12 ≤ LONGEST }
        ensures text { self.new ≡ self.old ++ 32 ∷ signed_decimal n }
        ensures len { length self.new ≤ length self.old + 12 }
    {
        self.put_byte(b' ');
        if n < 0 {
            self.put_byte(b'-');
        }
        self.put_digits(n.unsigned_abs().into());
    }

    /// Puts two hexadecimal digits.
    #[inline(always)]
    pub fn put_hex(&mut self, byte: u8)
        requires { length self.old + 2 ≤ LONGEST }
        ensures text { self.new ≡ self.old ++ hex_byte byte }
        ensures len { length self.new ≡ length self.old + 2 }
    {
        self.put_byte(hex_digit(byte / 16));
        self.put_byte(hex_digit(byte % 16));
    }

    /// Puts a blank and a byte as two hexadecimal digits.
    #[inline(always)]
    pub fn put_hex_byte(&mut self, byte: u8)
        requires { length self.old + 3 ≤ LONGEST }
        ensures text { self.new ≡ self.old ++ 32 ∷ hex_byte byte }
        ensures len { length self.new ≡ length self.old + 3 }
    {
        self.put_byte(b' ');
        self.put_hex(byte);
    }
}

/// How many decimal digits a number has.
#[tactic(auto, using(crate::proofs::DigitLaws::length_from_zero))]
#[inline(always)]
fn count_digits(n: u64) -> usize
    ensures { result ≡ length (decimal n) }
{
    n.max(1).ilog10() as usize + 1
}

/// A digit below 16, in capitals.
#[inline(always)]
fn hex_digit(digit: u8) -> u8
    requires { digit < 16 }
    ensures { result ≡ digit_glyph true digit }
{
    match digit {
        0..=9 => b'0' + digit,
        _ => b'A' + (digit - 10),
    }
}
