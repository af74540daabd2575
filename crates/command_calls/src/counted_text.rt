//! A sink that never fails: bytes that it has no room for are counted and not kept.
ghost use Rattle.std.specs.Prelude.{◌≡◌, ◌++◌, [], IfOk, IfSome, Some, length};
ghost use Rattle.command_calls.specs.Counted.{counted};

use crate::written::Written;
use outside_io::{Sink, SinkFault};
use std::alloc::{AllocError, Global};
use std::marker::Model;

/// A text: its bytes where all of them were kept, and in any case how many they are. Contracts see
/// it as the whole text.
#[derive(Drop)]
pub struct CountedText {
    room: usize,
    bytes: Vec<u8>,
    is_whole: bool,
    count: u64,
    written: Written,
}

impl Model for CountedText {
    ghost use Rattle.std.specs.Prelude.{◌≡◌, ℕ, List, length, true};
    ghost use Rattle.command_calls.specs.Bytes.{all_bytes};
    ghost use Rattle.command_calls.specs.Counted.{counted};

    ghost Value = { List ℕ };

    ghost view = { λ t. all_bytes t.written.pieces };

    ghost invariant = { λ t. (t.is_whole ≡ true → t.bytes.items ≡ all_bytes t.written.pieces) × (t.count ≡ counted (length (all_bytes t.written.pieces))) };
}

impl CountedText {
    /// An empty text that keeps as many bytes as there is room for. It takes its memory as it
    /// grows.
    #[tactic(auto, unfolding(crate::specs::Bytes::all_bytes))]
    pub fn new(alloc: Global, room: usize) -> CountedText
        ensures { result ≡ [] }
    {
        CountedText {
            room,
            bytes: Vec::new(alloc),
            is_whole: true,
            count: 0,
            written: Written::new(),
        }
    }

    /// An empty text that keeps as many bytes as there is room for, with the memory for them.
    #[tactic(auto, unfolding(crate::specs::Bytes::all_bytes))]
    pub fn with_room(alloc: Global, room: usize) -> Result<CountedText, AllocError>
        ensures { IfOk result (λ t. t ≡ []) }
    {
        Ok(CountedText {
            room,
            bytes: Vec::with_capacity(alloc, room)?,
            is_whole: true,
            count: 0,
            written: Written::new(),
        })
    }

    /// The text. `None` where it has more bytes than there is room for, or memory ran out.
    pub fn whole(&self) -> Option<&[u8]>
        ensures { IfSome result (λ bytes. bytes.now ≡ self.now) }
    {
        if self.is_whole {
            Some(&self.bytes)
        } else {
            None
        }
    }

    /// How many bytes the text has.
    pub fn count(&self) -> u64
        ensures { result ≡ counted (length self.now) }
    {
        self.count
    }

    /// Appends bytes to the text.
    pub fn push(&mut self, more: &[u8])
        ensures { self.new ≡ self.old ++ more.now }
    {
        self.written = self.written.then_bytes(more);
        self.count = self.count.saturating_add(more.len() as u64);
        if self.is_whole {
            self.is_whole = self.count <= self.room as u64
                && self.bytes.extend_from_slice(more).is_ok();
        }
    }
}

impl Sink for CountedText {
    ghost taken = { λ t. Some t };

    ghost faults = { λ _. 0 };

    /// It never fails.
    fn write(&mut self, bytes: &[u8]) -> Result<(), SinkFault> {
        self.push(bytes);
        Ok(())
    }
}
