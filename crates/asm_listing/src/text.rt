use board_base::OutOfMemory;
use std::alloc::Global;
use std::marker::Model;

/// A text that grows at its end.
#[derive(Drop)]
pub struct Text {
    bytes: Vec<u8>,
}

impl Model for Text {
    ghost use Rattle.std.specs.Prelude.{ℕ, List};

    ghost Value = { List ℕ };

    ghost view = { λ text. text.bytes.items };
}

impl Text {
    ghost use Rattle.std.specs.Prelude.{◌≡◌, ◌<◌, [], ◌∷◌, ◌++◌, OnOk, decimal, true};
    ghost use Rattle.std.specs.Fmt.{digit_glyph};
    ghost use Rattle.text_line.specs.Words.{hex_byte, hex_word};

    /// A text without a byte, which takes no memory yet.
    pub fn new(alloc: Global) -> Text
        ensures { result ≡ [] }
    {
        Text {
            bytes: Vec::new(alloc),
        }
    }

    /// The bytes.
    pub fn bytes(&self) -> &[u8]
        ensures { result.now ≡ self.now }
    {
        self.bytes.as_slice()
    }

    /// One byte more.
    pub(crate) fn byte(&mut self, byte: u8) -> Result<(), OutOfMemory>
        ensures { OnOk result (self.new ≡ self.old ++ byte ∷ []) }
    {
        match self.bytes.push(byte) {
            Ok(()) => Ok(()),
            Err(_) => Err(OutOfMemory),
        }
    }

    /// A hexadecimal digit, in an upper-case letter from 10 on.
    fn digit(&mut self, digit: u8) -> Result<(), OutOfMemory>
        requires { digit < 16 }
        ensures { OnOk result (self.new ≡ self.old ++ digit_glyph true digit ∷ []) }
    {
        self.byte(if digit < 10 {
            b'0' + digit
        } else {
            b'A' - 10 + digit
        })
    }

    /// Two hexadecimal digits.
    pub(crate) fn hex(&mut self, byte: u8) -> Result<(), OutOfMemory>
        ensures { OnOk result (self.new ≡ self.old ++ hex_byte byte) }
    {
        self.digit(byte / 16)?;
        self.digit(byte % 16)
    }

    /// A number in decimal digits.
    pub(crate) fn number(&mut self, n: u32) -> Result<(), OutOfMemory>
        ensures { OnOk result (self.new ≡ self.old ++ decimal n) }
    {
        let mut digits = itoa::Buffer::new();
        match self.bytes.extend_from_slice(digits.format(n).as_bytes()) {
            Ok(()) => Ok(()),
            Err(_) => Err(OutOfMemory),
        }
    }
}
