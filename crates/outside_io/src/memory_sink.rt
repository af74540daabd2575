//! A sink in memory that states what it took, and fails where a test wants it to.
ghost use Rattle.std.specs.Prelude.{◌≡◌, ◌≢◌, ◌↔◌, [], IfOk, IsErr, IsOk, Some};
ghost use Rattle.outside_io.specs.Causes.{HasCause};
ghost use Rattle.outside_io.specs.Memory.{empty_sink, WriteFails, after_write};
ghost use Rattle.outside_io.specs.Sink.{Takes};

use crate::answers::SinkFault;
use crate::append::append;
use crate::outside::Sink;
use board_base::OutOfMemory;
use std::alloc::Global;
use std::marker::Model;

/// Keeps the bytes that it takes, up to the room that it was made with. A write takes no memory.
#[derive(Drop)]
pub struct MemorySink {
    bytes: Vec<u8>,
    room: usize,
    fail: Vec<u64>,
    calls: u64,
    faults: u64,
}

impl Model for MemorySink {
    ghost use Rattle.std.specs.Prelude.{◌≤◌, vec_len, vec_capacity};
    ghost use Rattle.outside_io.specs.Memory.{SinkValue};

    ghost Value = { SinkValue };

    ghost view = { λ s. record { bytes = s.bytes.items; room = s.room; fail = s.fail.items; calls = s.calls; faults = s.faults } };

    ghost invariant = { λ s. (vec_len s.bytes ≤ s.room) × (s.room ≤ vec_capacity s.bytes) };
}

impl MemorySink {
    /// Takes the memory of `room` bytes. `fail` has the numbers of the writes that fail, counted
    /// from 1.
    pub fn new(alloc: Global, room: usize, fail: &[u64]) -> Result<MemorySink, OutOfMemory>
        ensures { IfOk result (λ sink. sink ≡ empty_sink room fail.now) }
    {
        Ok(MemorySink {
            bytes: Vec::with_capacity(alloc, room)?,
            room,
            fail: Vec::from_slice(alloc, fail)?,
            calls: 0,
            faults: 0,
        })
    }

    /// What was taken.
    pub fn bytes(&self) -> &[u8]
        ensures { result.now ≡ self.now.bytes }
    {
        &self.bytes
    }
}

impl Sink for MemorySink {
    ghost taken = { λ s. Some s.bytes };

    ghost faults = { λ s. s.faults };

    /// A piece with no bytes isn't counted as a call.
    fn write(&mut self, bytes: &[u8]) -> Result<(), SinkFault>
        ensures taken { Takes (Some self.old.bytes) (Some self.new.bytes) bytes.now result }
        ensures cause { HasCause self.old.faults self.new.faults result }
        ensures empty { bytes.now ≡ [] → IsOk result }
        ensures nothing { bytes.now ≡ [] → self.new ≡ self.old }
        ensures after { bytes.now ≢ [] → self.new ≡ after_write self.old bytes.now result }
        ensures fails { bytes.now ≢ [] → (IsErr result ↔ WriteFails self.old bytes.now) }
    {
        if bytes.is_empty() {
            return Ok(());
        }
        self.calls = self.calls.saturating_add(1);
        if self.fail.contains(&self.calls) || bytes.len() > self.room - self.bytes.len() {
            self.faults = self.faults.saturating_add(1);
            return Err(SinkFault);
        }
        append(&mut self.bytes, bytes);
        Ok(())
    }
}
