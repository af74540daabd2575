ghost use Rattle.std.specs.Prelude.{◌≡◌, ◌+◌, ◌≤◌, [], ◌∷◌, ◌++◌, length, decimal};
ghost use Rattle.std.specs.Fmt.{signed_decimal};
ghost use Rattle.text_line.specs.Words.{hex_byte};

use crate::kept_text::{NumberText, PointText};
use std::marker::Model;
use text_line::{LONGEST, Line};

/// A line of the log while it is put together. It keeps the texts that most lines repeat: that of
/// the clock without its last four digits, and that of the point at which the last stroke ends,
/// where the next one begins.
#[derive(Drop)]
pub(crate) struct LogLine {
    line: Line,
    high: NumberText,
    point: PointText,
}

impl Model for LogLine {
    ghost use Rattle.std.specs.Prelude.{ℕ, List};

    ghost Value = { List ℕ };

    ghost view = { λ l. l.line };
}

/// Each piece is put behind what stands there.
impl LogLine {
    /// A line in which nothing stands.
    pub(crate) fn empty() -> LogLine
        ensures { result ≡ [] }
    {
        LogLine {
            line: Line::empty(),
            high: NumberText::zero(),
            point: PointText::centre(),
        }
    }

    /// The bytes put together so far.
    #[inline(always)]
    pub(crate) fn bytes(&self) -> &[u8]
        ensures { result.now ≡ self.now }
    {
        self.line.bytes()
    }

    /// Begins anew, with a letter and a clock.
    #[inline(always)]
    pub(crate) fn begin(&mut self, letter: u8, clock: u64)
        ensures text { self.new ≡ letter ∷ 32 ∷ decimal clock }
        ensures len { length self.new ≤ 22 }
    {
        let high = clock / 10_000;
        // Its zeros aren't written.
        if high == 0 {
            self.line.begin(letter, clock);
            return;
        }
        self.high.set(high);
        self.line.clear();
        self.line.put_byte(letter);
        self.line.put_piece(self.high.text());
        self.line.put_four((clock % 10_000) as u16);
    }

    /// Puts the two numbers of a point.
    #[inline(always)]
    pub(crate) fn put_point(&mut self, x: i32, y: i32)
        requires { length self.old + 24 ≤ LONGEST }
        ensures text { self.new ≡ self.old ++ 32 ∷ signed_decimal x ++ 32 ∷ signed_decimal y }
        ensures len { length self.new ≤ length self.old + 24 }
    {
        self.point.set(x, y);
        self.line.put_piece(self.point.text());
    }

    /// Puts two numbers below 256.
    #[inline(always)]
    pub(crate) fn put_pair(&mut self, first: u8, second: u8)
        requires { length self.old + 8 ≤ LONGEST }
        ensures text { self.new ≡ self.old ++ 32 ∷ decimal first ++ 32 ∷ decimal second }
        ensures len { length self.new ≤ length self.old + 8 }
    {
        self.line.put_small(first);
        self.line.put_small(second);
    }

    /// Puts a byte as two hexadecimal digits.
    #[inline(always)]
    pub(crate) fn put_hex_byte(&mut self, byte: u8)
        requires { length self.old + 3 ≤ LONGEST }
        ensures text { self.new ≡ self.old ++ 32 ∷ hex_byte byte }
        ensures len { length self.new ≡ length self.old + 3 }
    {
        self.line.put_hex_byte(byte);
    }

    /// Puts LF at its end.
    #[inline(always)]
    pub(crate) fn end(&mut self)
        requires { length self.old + 1 ≤ LONGEST }
        ensures text { self.new ≡ self.old ++ 10 ∷ [] }
        ensures len { length self.new ≡ length self.old + 1 }
    {
        self.line.put_byte(b'\n');
    }
}
