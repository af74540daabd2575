ghost use Rattle.std.specs.Prelude.{◌≡◌, ◌<◌, ◌≤◌, ◌++◌, IfOk, length, replicate, slice_index, slice_set, take, drop};

use crate::memory::OutOfMemory;
use std::alloc::Global;
use std::marker::Model;

/// The bytes of the vector memory's RAM, from address 2000.
pub const VECTOR_RAM_LEN: usize = 2048;

/// The bytes of its ROM, behind the RAM.
pub const VECTOR_ROM_LEN: usize = 14336;

/// The bytes that the vector generator sees, RAM and ROM.
pub const VECTOR_LEN: usize = 16384;

/// The `VECTOR_LEN` bytes that the vector generator sees: `VECTOR_RAM_LEN` of RAM, then
/// `VECTOR_ROM_LEN` of ROM.
/// Byte k is the one at processor address 2000 + k.
#[derive(Drop)]
pub struct VectorMemory {
    bytes: Vec<u8>,
}

impl Model for VectorMemory {
    ghost use Rattle.std.specs.Prelude.{◌≡◌, ℕ, List, length};
    ghost use Rattle.board_base.specs.declared.vector_memory.TheConstants.{VECTOR_LEN};

    ghost Value = { List ℕ };

    ghost view = { λ m. m.bytes.items };

    ghost invariant = { λ m. length m.bytes.items ≡ VECTOR_LEN };
}

impl VectorMemory {
    /// A memory with this ROM, and with a RAM that is all 0.
    pub fn new(alloc: Global, rom: &[u8]) -> Result<VectorMemory, OutOfMemory>
        requires { length rom.now ≡ VECTOR_ROM_LEN }
        ensures { IfOk result (λ m. m ≡ replicate VECTOR_RAM_LEN 0 ++ rom.now) }
    {
        let mut bytes = vec![in alloc; 0u8; VECTOR_RAM_LEN]?;
        bytes.extend_from_slice(rom)?;
        Ok(VectorMemory { bytes })
    }

    /// Byte `k` of both parts.
    pub fn byte(&self, k: u16) -> u8
        requires { k < VECTOR_LEN }
        ensures { result ≡ slice_index self.now k }
    {
        self.bytes[k as usize]
    }

    /// Writes byte `k` of the RAM.
    pub fn put(&mut self, k: u16, value: u8)
        requires { k < VECTOR_RAM_LEN }
        ensures { self.new ≡ slice_set self.old k value }
    {
        self.bytes[k as usize] = value;
    }

    /// The bytes of the RAM.
    pub fn ram(&self) -> &[u8]
        ensures bytes { result.now ≡ take VECTOR_RAM_LEN self.now }
        ensures len { length result.now ≡ VECTOR_RAM_LEN }
    {
        let (ram, _) = self.bytes.split_at(VECTOR_RAM_LEN);
        ram
    }

    /// Sets the whole RAM, and leaves the ROM.
    pub fn load_ram(&mut self, ram: &[u8; VECTOR_RAM_LEN])
        ensures { self.new ≡ ram.now ++ drop VECTOR_RAM_LEN self.old }
    {
        write_front(&mut self.bytes, ram);
    }
}

/// Writes `front` over the first bytes.
fn write_front(bytes: &mut [u8], front: &[u8])
    requires { length front.now ≤ length bytes.old }
    ensures { bytes.new ≡ front.now ++ drop (length front.now) bytes.old }
{
    bytes[..front.len()].copy_from_slice(front);
}
