//! What differs in a row.

use crate::stopped::Stopped;
use std::alloc::Global;

/// The most bytes that are shown of what was wanted, and of what came.
const SHOWN: usize = 400;

/// The differences that were found, as text. None where it is empty.
#[derive(Drop)]
pub struct Report {
    text: String,
}

/// The bytes of some that are shown, from one on.
fn shown(bytes: &[u8], from: usize) -> &[u8] {
    let rest = bytes.get(from..).unwrap_or(&[]);
    rest.get(..SHOWN).unwrap_or(rest)
}

/// Appends a byte in hexadecimal digits.
fn push_byte(byte: u8, text: &mut String) -> Result<(), Stopped> {
    write!(text, "{byte:02X} ")?;
    Ok(())
}

/// How many bytes are the same in both, from the first on.
fn count_same(wanted: &[u8], came: &[u8]) -> usize {
    let mut same = 0usize;
    for (wanted, came) in wanted.iter().zip(came) {
        if wanted != came {
            return same;
        }
        same = same.wrapping_add(1);
    }
    same
}

impl Report {
    /// No difference.
    pub fn new(alloc: Global) -> Report {
        Report {
            text: String::new(alloc),
        }
    }

    /// The differences, as lines.
    pub fn text(&self) -> &str {
        &self.text
    }

    /// Appends a word, and bytes in hexadecimal digits.
    fn push_digits(&mut self, word: &str, bytes: &[u8]) -> Result<(), Stopped> {
        self.text.push_str(word)?;
        for byte in bytes {
            push_byte(*byte, &mut self.text)?;
        }
        self.text.push_str("\n")?;
        Ok(())
    }

    /// Appends a word and bytes: as text, or in hexadecimal digits where they are none.
    fn push_bytes(&mut self, word: &str, bytes: &[u8]) -> Result<(), Stopped> {
        match str::from_utf8(bytes) {
            Ok(part) => {
                writeln!(self.text, "{word}{part}")?;
                Ok(())
            }
            Err(_) => self.push_digits(word, bytes),
        }
    }

    /// Takes in a difference: what differs in what a command did.
    pub fn add(&mut self, command: &str, what: &str) -> Result<(), Stopped> {
        writeln!(self.text, "{command}\n  {what}")?;
        Ok(())
    }

    /// Reports that an I/O call of a command fails, and more or less is done than what comes before
    /// it.
    pub fn add_call(&mut self, command: &str, kind: &str, call: u64) -> Result<(), Stopped> {
        self.add(command, "a call that fails")?;
        writeln!(self.text, "  number {call} of the calls of the {kind}")?;
        Ok(())
    }

    /// Takes in a difference with the numbers that were wanted and that came.
    pub fn add_numbers(
        &mut self,
        command: &str,
        what: &str,
        wanted: usize,
        came: usize,
    ) -> Result<(), Stopped> {
        self.add(command, what)?;
        writeln!(self.text, "  wanted: {wanted}\n  came: {came}")?;
        Ok(())
    }

    /// Takes in a difference with the bytes that were wanted and those that came.
    pub fn add_bytes(
        &mut self,
        command: &str,
        what: &str,
        wanted: &[u8],
        came: &[u8],
    ) -> Result<(), Stopped> {
        self.add(command, what)?;
        self.push_bytes("  wanted: ", shown(wanted, 0))?;
        self.push_bytes("  came: ", shown(came, 0))
    }

    /// Takes in a difference of two runs of bytes, from the first that differs on.
    pub fn add_difference(
        &mut self,
        command: &str,
        what: &str,
        wanted: &[u8],
        came: &[u8],
    ) -> Result<(), Stopped> {
        let same = count_same(wanted, came);
        self.add_numbers(command, what, wanted.len(), came.len())?;
        writeln!(self.text, "  the same: {same}")?;
        self.push_digits("  wanted then: ", shown(wanted, same))?;
        self.push_digits("  came then: ", shown(came, same))
    }
}
