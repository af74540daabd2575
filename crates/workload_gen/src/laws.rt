//! Laws on the workload that no call needs when it runs. Each is the contract of a function that
//! does nothing.
ghost use Rattle.std.specs.Prelude.{◌≡◌, ℕ, ◌+◌, ◌*◌, ◌<◌, ◌≤◌, Some, length, slice_index};
ghost use Rattle.rom_image.specs.Addresses.{byte_of};
ghost use Rattle.workload_gen.specs.Roms.{HasWord, image_of, interrupt_vectors, program};
ghost use Rattle.workload_gen.specs.Tape.{tape_of};
ghost use Rattle.workload_gen.specs.Words.{words_of};

use rom_image::IMAGE_LEN;

/// How long the words, the entries and the image of a seed are.
#[tactic(auto, using(crate::proofs::SizeLaws::sizes))]
pub fn sizes_of_a_workload()
    ensures words { (seed : ℕ) → length (words_of seed) ≡ 313 }
    ensures entries { (seed : ℕ) → length (tape_of seed).entries ≡ 200 }
    ensures image { (seed : ℕ) → length (image_of seed) ≡ IMAGE_LEN }
{}

/// Where the bytes of a seed's image stand: the words from 2800, the program from 9000 and the
/// interrupt vectors from FFFA. All others of both ROMs are 0.
#[tactic(auto, using(crate::proofs::AddressLaws::addresses))]
pub fn bytes_by_their_addresses()
    ensures words { (seed k : ℕ) → k < length (words_of seed) → HasWord (image_of seed) (0x2800 + 2 * k) (slice_index (words_of seed) k) }
    ensures program { (seed k : ℕ) → k < length program → byte_of (image_of seed) (0x9000 + k) ≡ Some (slice_index program k) }
    ensures vectors { (seed k : ℕ) → k < length interrupt_vectors → byte_of (image_of seed) (0xFFFA + k) ≡ Some (slice_index interrupt_vectors k) }
    ensures after_words { (seed addr : ℕ) → 0x2A72 ≤ addr → addr < 0x6000 → byte_of (image_of seed) addr ≡ Some 0 }
    ensures after_program { (seed addr : ℕ) → 0x9049 ≤ addr → addr < 0xFFFA → byte_of (image_of seed) addr ≡ Some 0 }
{}
