ghost use Rattle.flat_bus.specs.Flat.{zeros, noted};
ghost use Rattle.std.specs.Prelude.{◌≡◌, ◌+◌, ◌≤◌, ◌++◌, IfOk, [], length, take, drop, slice_index};

use crate::logged::{Direction, Logged};
use board_base::OutOfMemory;
use cpu_core::Bus;
use std::alloc::Global;
use std::marker::Model;

/// A bus over 65,536 bytes that notes each access.
///
/// Its room is the number of accesses that it can still note.
#[derive(Drop)]
pub struct FlatBus {
    bytes: Vec<u8>,
    log: Vec<Logged>,
}

impl Model for FlatBus {
    ghost use Rattle.std.specs.Prelude.{◌≡◌, ◌-◌, ◌≤◌, ◌<◌, ◌^◌, length, vec_capacity};
    ghost use Rattle.flat_bus.specs.Flat.{FlatValue};

    ghost Value = { FlatValue };

    ghost view = { λ b. record { bytes = b.bytes.items; log = b.log.items; room = vec_capacity b.log - length b.log.items } };

    ghost invariant = { λ b. length b.bytes.items ≡ 2 ^ 16 };
}

/// This many bytes that are all 0.
pub(crate) fn make_zeros(alloc: Global, n: usize) -> Result<Vec<u8>, OutOfMemory>
    ensures zeros { IfOk result (λ v. v.items ≡ zeros n) }
    ensures length { IfOk result (λ v. length v.items ≡ n) }
{
    Ok(vec![in alloc; 0u8; n]?)
}

/// Writes some bytes at an index.
pub(crate) fn overwrite(all: &mut [u8], at: usize, bytes: &[u8])
    requires { at + length bytes.now ≤ length all.old }
    ensures { all.new ≡ take at all.old ++ bytes.now ++ drop (at + length bytes.now) all.old }
{
    all[at..at + bytes.len()].copy_from_slice(bytes);
}

impl FlatBus {
    /// A bus whose bytes are 0, with room for as many accesses.
    pub fn new(alloc: Global, room: usize) -> Result<FlatBus, OutOfMemory>
        ensures { IfOk result (λ b. b ≡ record { bytes = zeros 65536; log = []; room = room }) }
    {
        let bytes = make_zeros(alloc, 65536)?;
        let log = Vec::with_capacity(alloc, room)?;
        Ok(FlatBus { bytes, log })
    }

    /// Puts bytes at an address without an access.
    pub fn load(&mut self, at: u16, bytes: &[u8])
        requires { at + length bytes.now ≤ 65536 }
        ensures { self.new ≡ record self.old { bytes = take at self.old.bytes ++ bytes.now ++ drop (at + length bytes.now) self.old.bytes } }
    {
        overwrite(&mut self.bytes, usize::from(at), bytes);
    }

    /// The byte at an address, without an access.
    pub fn byte(&self, addr: u16) -> u8
        ensures { result ≡ slice_index self.now.bytes addr }
    {
        self.bytes[usize::from(addr)]
    }

    /// The accesses so far, the first one first.
    pub fn log(&self) -> &[Logged]
        ensures { result.now ≡ self.now.log }
    {
        self.log.as_slice()
    }

    /// The number of accesses that can still be noted.
    pub fn room(&self) -> usize
        ensures { result ≡ self.now.room }
    {
        self.log.capacity() - self.log.len()
    }

    /// Notes an access.
    fn note(&mut self, direction: Direction, addr: u16, byte: u8)
        requires { 1 ≤ self.old.room }
        ensures { self.new ≡ noted direction addr byte self.old }
    {
        let clock = self.log.len() as u64;
        self.log.push_reserved(Logged {
            clock,
            direction,
            addr,
            byte,
        });
    }
}

impl Bus for FlatBus {
    ghost use Rattle.flat_bus.specs.Flat.{FlatStep};

    type Feed = ();

    ghost step = { λ _ x s t. FlatStep x s t };

    ghost accepts = { λ _ _. Unit {0} };

    ghost room = { λ s. s.room };

    fn read(&mut self, _feed: &(), addr: u16) -> u8 {
        let byte = self.byte(addr);
        self.note(Direction::Read, addr, byte);
        byte
    }

    fn write(&mut self, _feed: &(), addr: u16, value: u8) {
        self.bytes[usize::from(addr)] = value;
        self.note(Direction::Write, addr, value);
    }
}
