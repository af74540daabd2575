ghost use Rattle.std.specs.Prelude.{◌<◌};

use board_base::OutOfMemory;
use rom_image::{Image, PROGRAM_ROM_START, VECTOR_ROM_START};
use std::alloc::Global;

/// The address of the processor's three vectors.
const VECTORS: u16 = 0xFFFA;

/// The vectors: an interrupt goes to the handler of the soak workload's program, all else to the
/// start.
const VECTOR_BYTES: [u8; 6] = [0x00, 0x90, 0x00, 0x90, 0x3D, 0x90];

/// `CLD`, `LDX #FF`, `TXS`; then again and again `LDY #0`, `INY`, `BNE`, `INX`, `BNE`, `JMP`.
const COUNTING: [u8; 15] = [
    0xD8, 0xA2, 0xFF, 0x9A, 0xA0, 0x00, 0xC8, 0xD0, 0xFD, 0xE8, 0xD0, 0xFA, 0x4C, 0x04, 0x90,
];

/// `INC 10`, and a jump to it.
const RAM_COUNTING: [u8; 5] = [0xE6, 0x10, 0x4C, 0x00, 0x90];

/// Puts a jump to the vector ROM into the vector RAM, sets both POKEYs to play, and lets interrupts
/// come. Then it clears the watchdog until the generator is halted, starts it again, takes new
/// periods from RANDOM, counts a byte of the RAM, and writes the output latch; and again. The
/// handler acknowledges the interrupt and takes AUDC3 of POKEY 1 from IN3.
const SOAK: [u8; 73] = [
    0xD8, 0xA2, 0xFF, 0x9A, 0xA9, 0xE4, 0x8D, 0x01, 0x20, 0xA9, 0x03, 0x8D, 0x0F, 0x60, 0x8D, 0x0F,
    0x68, 0xA9, 0xA6, 0x8D, 0x01, 0x60, 0x8D, 0x03, 0x68, 0x58, 0x8D, 0x80, 0x89, 0xAD, 0x00, 0x78,
    0x29, 0x40, 0xF0, 0xF6, 0x8D, 0x40, 0x88, 0xAD, 0x0A, 0x60, 0x8D, 0x00, 0x60, 0xAD, 0x0A, 0x68,
    0x8D, 0x02, 0x68, 0xE6, 0x10, 0xA5, 0x10, 0x8D, 0x00, 0x88, 0x4C, 0x1A, 0x90, 0x48, 0x8D, 0xC0,
    0x88, 0xAD, 0x00, 0x80, 0x8D, 0x05, 0x60, 0x68, 0x40,
];

/// The words of the soak workload's picture: to the middle; a scale, a colour and intensity, and a
/// short vector, to each of which a drawn number is added; and the end.
const CENTRE: u16 = 0x8000;

const SCALE: u16 = 0x7100;

const STATUS: u16 = 0x6000;

const SHORT_VECTOR: u16 = 0x4000;

const HALT: u16 = 0x2000;

/// What a board's processor does.
#[derive(Clone, Copy, Debug, PartialEq, Eq)]
pub enum Program {
    /// Counts in its registers alone.
    CountingLoop,
    /// The soak workload: a picture of 300 short vectors drawn again and again, two POKEYs that
    /// play, and a handler of interrupts.
    Soak,
    /// Counts a byte of the RAM, with the generator halted and the POKEYs at rest.
    RamLoop,
}

impl Program {
    /// What it is called in a report.
    pub fn name(self) -> &'static str {
        match self {
            Program::CountingLoop => "a board whose processor counts in its registers",
            Program::Soak => "a board that draws 300 short vectors, plays and takes interrupts",
            Program::RamLoop => "a board whose processor counts in the RAM",
        }
    }

    /// The image of a board that does it.
    pub fn image(self, alloc: Global) -> Result<Image, OutOfMemory> {
        let mut burner = Burner::new(alloc)?;
        match self {
            Program::CountingLoop => burner.put_from(PROGRAM_ROM_START, &COUNTING),
            Program::Soak => {
                burner.put_picture();
                burner.put_from(PROGRAM_ROM_START, &SOAK);
            }
            Program::RamLoop => burner.put_from(PROGRAM_ROM_START, &RAM_COUNTING),
        }
        burner.put_from(VECTORS, &VECTOR_BYTES);
        Ok(burner.image())
    }
}

/// An image, and the address of the byte that is put next.
#[derive(Drop)]
pub(crate) struct Burner {
    image: Image,
    place: u16,
}

impl Burner {
    /// A blank image.
    pub(crate) fn new(alloc: Global) -> Result<Burner, OutOfMemory> {
        Ok(Burner {
            image: Image::blank(alloc)?,
            place: VECTOR_ROM_START,
        })
    }

    /// The image.
    pub(crate) fn image(self) -> Image {
        self.image
    }

    /// Puts a byte into a ROM.
    pub(crate) fn put(&mut self, byte: u8) {
        if self.image.byte_at(self.place).is_some() {
            self.image.put(self.place, byte);
        }
        self.place = self.place.wrapping_add(1);
    }

    /// Puts bytes from an address on.
    pub(crate) fn put_from(&mut self, place: u16, bytes: &[u8]) {
        self.place = place;
        for byte in bytes {
            self.put(*byte);
        }
    }

    /// Puts a word, its low byte first.
    pub(crate) fn put_word(&mut self, word: u16) {
        let [low, high] = word.to_le_bytes();
        self.put(low);
        self.put(high);
    }

    /// Puts the soak workload's picture, from the start of the vector ROM on.
    fn put_picture(&mut self) {
        let mut draws = Draws::from(1);
        self.place = VECTOR_ROM_START;
        self.put_word(CENTRE);
        self.put_word(SCALE + draws.below(128));
        for vector in 0..300u16 {
            if vector % 30 == 0 {
                self.put_word(STATUS + draws.below(256));
            }
            self.put_word(SHORT_VECTOR + draws.below(8192));
        }
        self.put_word(HALT);
    }
}

/// A linear congruential generator, with the factor and the summand of Knuth's MMIX.
#[derive(Drop)]
pub(crate) struct Draws {
    last: u64,
}

impl Draws {
    /// Numbers that begin with a seed.
    pub(crate) fn from(seed: u64) -> Draws {
        Draws { last: seed }
    }

    /// The next number, modulo another: its upper 16 bits are taken.
    pub(crate) fn below(&mut self, modulus: u16) -> u16
        requires { 0 < modulus }
        ensures { result < modulus }
    {
        self.last = self
            .last
            .wrapping_mul(6_364_136_223_846_793_005)
            .wrapping_add(1_442_695_040_888_963_407);
        (self.last >> 48) as u16 % modulus
    }

    /// The next number, a byte.
    pub(crate) fn byte(&mut self) -> u8 {
        self.below(256) as u8
    }
}
