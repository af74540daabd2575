ghost use Rattle.std.specs.Prelude.{◌≡◌, ◌++◌, ◌∷◌, ◌<◌, ◌≤◌, [], length};
ghost use Rattle.cpu_core.specs.Places.{given_by, padded};

use board_base::Mid;
use std::marker::Model;

/// The bytes of the accesses of a sequence so far, at most seven.
#[derive(Drop)]
pub(crate) struct Seen {
    bytes: [u8; 7],
    count: usize,
}

impl Model for Seen {
    ghost use Rattle.std.specs.Prelude.{List, ℕ, take, ◌≤◌};

    ghost Value = { List ℕ };

    ghost view = { λ s. take s.count s.bytes };

    ghost invariant = { λ s. s.count ≤ 7 };
}

impl Seen {
    /// No byte.
    pub fn new() -> Seen
        ensures { result ≡ [] }
    {
        Seen {
            bytes: [0; 7],
            count: 0,
        }
    }

    /// The bytes of a place.
    pub fn of(mid: &Mid) -> Seen
        ensures { result ≡ given_by mid.now }
    {
        let mut bytes = [0; 7];
        bytes[..6].copy_from_slice(&mid.bytes);
        Seen {
            bytes,
            count: usize::from(mid.count),
        }
    }

    /// The bytes.
    pub fn bytes(&self) -> &[u8]
        ensures { result.now ≡ self.now }
    {
        &self.bytes[..self.count]
    }

    /// Adds a byte.
    pub fn push(&mut self, byte: u8)
        requires { length self.old < 7 }
        ensures { self.new ≡ self.old ++ byte ∷ [] }
    {
        self.bytes[self.count] = byte;
        self.count += 1;
    }
}

/// These bytes, and then 0.
pub(crate) fn pad(bytes: &[u8]) -> [u8; 6]
    requires { length bytes.now ≤ 6 }
    ensures { result ≡ padded bytes.now }
{
    let mut all = [0; 6];
    all[..bytes.len()].copy_from_slice(bytes);
    all
}
