//! The numbers of an image as plain numbers, by the contract of a function that does nothing.
ghost use Rattle.std.specs.Prelude.{◌≡◌, ◌+◌};

use crate::image::{IMAGE_LEN, PROGRAM_ROM_LEN, PROGRAM_ROM_START, VECTOR_ROM_START};
use board_base::VECTOR_ROM_LEN;

/// The bytes of an image: 14,336 of the vector ROM and 28,672 of the program ROM, 43,008 in all;
/// and the first addresses of both, from which each goes to 5FFF and FFFF.
pub fn image_numbers()
    ensures vector_rom { VECTOR_ROM_LEN ≡ 14336 }
    ensures program_rom { PROGRAM_ROM_LEN ≡ 28672 }
    ensures image { IMAGE_LEN ≡ 43008 }
    ensures starts { (VECTOR_ROM_START ≡ 0x2800) × (PROGRAM_ROM_START ≡ 0x9000) }
    ensures ends { (VECTOR_ROM_START + VECTOR_ROM_LEN ≡ 0x6000) × (PROGRAM_ROM_START + PROGRAM_ROM_LEN ≡ 0x10000) }
{}
