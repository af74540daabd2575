ghost use Rattle.std.specs.Prelude.{◌≡◌, ◌<◌, IfOk, IfSome, IsSome, length, replicate, slice_set};
ghost use Rattle.rom_image.specs.Addresses.{offset_of, byte_of};
ghost use Rattle.rom_image.specs.Reading.{ReadsImage};

use crate::fault::ImageFault;
use board_base::{OutOfMemory, VECTOR_ROM_LEN};
use std::alloc::Global;
use std::marker::Model;

/// The first address of the vector ROM.
pub const VECTOR_ROM_START: u16 = 0x2800;

/// The first address of the program ROM, which ends with the addresses.
pub const PROGRAM_ROM_START: u16 = 0x9000;

/// The bytes of the program ROM.
pub const PROGRAM_ROM_LEN: usize = 28_672;

/// The bytes of an image: those of the vector ROM, and then those of the program ROM.
pub const IMAGE_LEN: usize = VECTOR_ROM_LEN + PROGRAM_ROM_LEN;

/// The board's two ROMs: 43,008 bytes, the vector ROM from 2800 to 5FFF and then the program ROM
/// from 9000 to FFFF.
#[derive(Drop)]
pub struct Image {
    bytes: Vec<u8>,
}

impl Model for Image {
    ghost use Rattle.std.specs.Prelude.{◌≡◌, ℕ, List, length};
    ghost use Rattle.rom_image.specs.declared.image.TheConstants.{IMAGE_LEN};

    ghost Value = { List ℕ };

    ghost view = { λ i. i.bytes.items };

    ghost invariant = { λ i. length i.bytes.items ≡ IMAGE_LEN };
}

/// The place of an address in an image.
fn offset(addr: u16) -> Option<usize>
    ensures place { result ≡ offset_of addr }
    ensures inside { IfSome result (λ k. k < IMAGE_LEN) }
{
    match addr {
        VECTOR_ROM_START..=0x5FFF => Some((addr - VECTOR_ROM_START) as usize),
        PROGRAM_ROM_START..=0xFFFF => Some(VECTOR_ROM_LEN + (addr - PROGRAM_ROM_START) as usize),
        _ => None,
    }
}

/// As many zeros.
fn zeros(alloc: Global, n: usize) -> Result<Vec<u8>, OutOfMemory>
    ensures items { IfOk result (λ v. v.items ≡ replicate n 0) }
    ensures len { IfOk result (λ v. length v.items ≡ n) }
{
    Ok(vec![in alloc; 0u8; n]?)
}

impl Image {
    /// Copies the bytes of an image file; refuses any other number of bytes, before memory is
    /// taken.
    pub fn read(alloc: Global, bytes: &[u8]) -> Result<Image, ImageFault>
        ensures { ReadsImage bytes.now result }
    {
        if bytes.len() != IMAGE_LEN {
            return Err(ImageFault::Length(bytes.len()));
        }
        match Vec::from_slice(alloc, bytes) {
            Ok(bytes) => Ok(Image { bytes }),
            Err(_) => Err(ImageFault::OutOfMemory),
        }
    }

    /// An image whose bytes are all 0.
    pub fn blank(alloc: Global) -> Result<Image, OutOfMemory>
        ensures { IfOk result (λ image. image ≡ replicate IMAGE_LEN 0) }
    {
        let bytes = zeros(alloc, IMAGE_LEN)?;
        Ok(Image { bytes })
    }

    /// The 43,008 bytes.
    pub fn bytes(&self) -> &[u8]
        ensures bytes { result.now ≡ self.now }
        ensures len { length result.now ≡ IMAGE_LEN }
    {
        self.bytes.as_slice()
    }

    /// The byte at a processor address; none outside 2800 to 5FFF and 9000 to FFFF.
    pub fn byte_at(&self, addr: u16) -> Option<u8>
        ensures { result ≡ byte_of self.now addr }
    {
        match offset(addr) {
            Some(k) => Some(self.bytes[k]),
            None => None,
        }
    }

    /// Writes the byte at a processor address that has one.
    pub fn put(&mut self, addr: u16, value: u8)
        requires { IsSome (offset_of addr) }
        ensures { IfSome (offset_of addr) (λ k. self.new ≡ slice_set self.old k value) }
    {
        if let Some(k) = offset(addr) {
            self.bytes[k] = value;
        }
    }
}
