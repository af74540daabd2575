ghost use Rattle.std.specs.Prelude.{◌≡◌, ℕ, ◌+◌, ◌*◌, ◌^◌, ◌<◌, ◌≤◌, Some, IfOk, length};
ghost use Rattle.std.specs.List.{flat_map};
ghost use Rattle.rom_image.specs.Addresses.{offset_of};
ghost use Rattle.workload_gen.specs.Putting.{place_of, with_bytes};
ghost use Rattle.workload_gen.specs.Roms.{bytes_of, image_with};

use board_base::{OutOfMemory, VECTOR_ROM_LEN};
use rom_image::{Image, PROGRAM_ROM_START, VECTOR_ROM_START};
use std::alloc::Global;

/// Where the processor finds its interrupt vectors, at the program ROM's end.
const INTERRUPT_VECTORS_AT: u16 = 0xFFFA;

/// The program. It puts a jump to the vector ROM at the start of the vector RAM, sets both POKEYs
/// and enables interrupts. Then, each time the generator has halted, it starts it again, hands a
/// random number of each POKEY to one of its channels, and writes a count to the output latch;
/// while it waits it clears the watchdog. An interrupt is acknowledged, and IN3 goes to a channel.
const PROGRAM: [u8; 73] = [
    0xD8, 0xA2, 0xFF, 0x9A, 0xA9, 0xE4, 0x8D, 0x01, 0x20, 0xA9, 0x03, 0x8D, 0x0F, 0x60, 0x8D, 0x0F,
    0x68, 0xA9, 0xA6, 0x8D, 0x01, 0x60, 0x8D, 0x03, 0x68, 0x58, 0x8D, 0x80, 0x89, 0xAD, 0x00, 0x78,
    0x29, 0x40, 0xF0, 0xF6, 0x8D, 0x40, 0x88, 0xAD, 0x0A, 0x60, 0x8D, 0x00, 0x60, 0xAD, 0x0A, 0x68,
    0x8D, 0x02, 0x68, 0xE6, 0x10, 0xA5, 0x10, 0x8D, 0x00, 0x88, 0x4C, 0x1A, 0x90, 0x48, 0x8D, 0xC0,
    0x88, 0xAD, 0x00, 0x80, 0x8D, 0x05, 0x60, 0x68, 0x40,
];

/// The vectors of NMI, of reset and of the interrupt; the first two are the program's start.
const INTERRUPT_VECTORS: [u8; 6] = [0x00, 0x90, 0x00, 0x90, 0x3D, 0x90];

/// The bytes of words, each with its low byte first.
fn word_bytes(alloc: Global, words: &[u16]) -> Result<Vec<u8>, OutOfMemory>
    ensures { IfOk result (λ made. made.items ≡ flat_map bytes_of words.now) }
{
    let mut bytes = Vec::new(alloc);
    'words: for word in words {
        bytes.extend_from_slice(&word.to_le_bytes())?;
    }
    Ok(bytes)
}

/// Puts bytes into an image, from an address on.
#[tactic(auto, using(crate::proofs::ImageLaws::steps), unfolding(crate::specs::Putting::with_bytes))]
fn put_bytes(image: &mut Image, at: u16, bytes: &[u8])
    requires room { at + length bytes.now ≤ 2 ^ 16 }
    requires inside { (k : ℕ) → k < length bytes.now → offset_of (at + k) ≡ Some (place_of at + k) }
    ensures { image.new ≡ with_bytes (place_of at) bytes.now image.old }
{
    'bytes: for (k, byte) in bytes.iter().enumerate() {
        image.put(at + k as u16, *byte);
    }
}

/// The image with these words in its vector ROM, and with the program.
#[tactic(auto, using(crate::proofs::ImageLaws::parts), unfolding(crate::specs::Roms::program, crate::specs::Roms::interrupt_vectors))]
pub fn workload_image(alloc: Global, words: &[u16]) -> Result<Image, OutOfMemory>
    requires { 2 * length words.now ≤ VECTOR_ROM_LEN }
    ensures { IfOk result (λ image. image ≡ image_with words.now) }
{
    let bytes = word_bytes(alloc, words)?;
    let mut image = Image::blank(alloc)?;
    put_bytes(&mut image, VECTOR_ROM_START, &bytes);
    put_bytes(&mut image, PROGRAM_ROM_START, &PROGRAM);
    put_bytes(&mut image, INTERRUPT_VECTORS_AT, &INTERRUPT_VECTORS);
    Ok(image)
}
