//! A file in memory.
ghost use Rattle.std.specs.Prelude.{◌≡◌, ℕ, ◌+◌, ◌≤◌, List, [], take, drop, length, IfOk, IsUtf8, vec_len, vec_capacity};

use crate::append::append;
use std::alloc::{AllocError, Global};
use std::marker::Model;

/// A file in memory: a name and the bytes under it. Contracts see it as the pair of the two.
#[derive(Drop)]
pub struct Stored {
    // The name, and then the bytes.
    text: Vec<u8>,
    name_length: usize,
}

impl Model for Stored {
    ghost Value = { List ℕ × List ℕ };

    ghost view = { λ s. (take s.name_length s.text.items, drop s.name_length s.text.items) };

    ghost invariant = { λ s. (s.name_length ≤ vec_len s.text) × IsUtf8 (take s.name_length s.text.items) };
}

impl Stored {
    /// Takes the memory that the name and the bytes need, and no more.
    pub(crate) fn new(alloc: Global, name: &str, bytes: &[u8]) -> Result<Stored, AllocError>
        ensures { IfOk result (λ s. s ≡ (name.now, bytes.now)) }
    {
        let buffer = Vec::with_capacity(alloc, name.len() + bytes.len())?;
        Ok(Stored::fill(buffer, name, bytes))
    }

    /// Fills an empty buffer, and takes no memory.
    pub(crate) fn fill(mut buffer: Vec<u8>, name: &str, bytes: &[u8]) -> Stored
        requires empty { buffer.items ≡ [] }
        requires in_room { length name.now + length bytes.now ≤ vec_capacity buffer }
        ensures { result ≡ (name.now, bytes.now) }
    {
        append(&mut buffer, name.as_bytes());
        append(&mut buffer, bytes);
        Stored {
            text: buffer,
            name_length: name.len(),
        }
    }

    /// The name under which it stands.
    pub fn name(&self) -> &str
        ensures { result.now ≡ self.now.0 }
    {
        str::from_utf8(&self.text[..self.name_length]).unwrap()
    }

    /// Its content.
    pub fn bytes(&self) -> &[u8]
        ensures { result.now ≡ self.now.1 }
    {
        &self.text[self.name_length..]
    }
}
