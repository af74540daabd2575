ghost use Rattle.std.specs.Prelude.{◌≡◌};
ghost use Rattle.asm_avg.specs.Statements.{base_of, mnemonic_of, mnemonic_origin, places_of, mnemonic_size, text_of};

use crate::layout::{
    BINARY_SCALE, COLOUR, INTENSITY, LINEAR_SCALE, LONG_X, LONG_Y, LONG_Z, SHORT_X, SHORT_Y,
    SHORT_Z, TARGET,
};
use asm_core::Place;
use board_map::VECTOR_RAM_START;

/// What a statement of the generator's own does.
#[derive(Clone, Copy, Debug, PartialEq, Eq)]
pub enum Mnemonic {
    /// Draws a long vector.
    Vctr,
    /// Draws a short vector.
    Svec,
    /// Sets the colour and the intensity.
    Stat,
    /// Sets the scales.
    Scal,
    /// Moves the beam to the centre.
    Cntr,
    /// Halts the generator.
    Halt,
    /// Calls a subroutine.
    Jsrl,
    /// Returns from a subroutine.
    Rtsl,
    /// Jumps.
    Jmpl,
}

/// Each of them.
const MNEMONICS: [Mnemonic; 9] = [
    Mnemonic::Vctr,
    Mnemonic::Svec,
    Mnemonic::Stat,
    Mnemonic::Scal,
    Mnemonic::Cntr,
    Mnemonic::Halt,
    Mnemonic::Jsrl,
    Mnemonic::Rtsl,
    Mnemonic::Jmpl,
];

impl Mnemonic {
    /// The word that a statement begins with.
    fn text(self) -> &'static [u8]
        ensures { result.now ≡ text_of self }
    {
        match self {
            Mnemonic::Vctr => b"vctr",
            Mnemonic::Svec => b"svec",
            Mnemonic::Stat => b"stat",
            Mnemonic::Scal => b"scal",
            Mnemonic::Cntr => b"cntr",
            Mnemonic::Halt => b"halt",
            Mnemonic::Jsrl => b"jsrl",
            Mnemonic::Rtsl => b"rtsl",
            Mnemonic::Jmpl => b"jmpl",
        }
    }

    /// What a word begins, in letters of either case.
    pub(crate) fn of(word: &[u8]) -> Option<Mnemonic>
        ensures { result ≡ mnemonic_of word.now }
    {
        MNEMONICS
            .iter()
            .copied()
            .find(|mnemonic| word.eq_ignore_ascii_case(mnemonic.text()))
    }

    /// How many bytes a statement has.
    pub(crate) fn size(self) -> u8
        ensures { result ≡ mnemonic_size self }
    {
        match self {
            Mnemonic::Vctr => 4,
            _ => 2,
        }
    }

    /// The bytes of a statement whose fields are all 0, as a number, the lowest first.
    pub(crate) fn base(self) -> u32
        ensures { result ≡ base_of self }
    {
        match self {
            Mnemonic::Vctr => 0x0000,
            Mnemonic::Halt => 0x2000,
            Mnemonic::Svec => 0x4000,
            Mnemonic::Stat => 0x6000,
            Mnemonic::Scal => 0x7000,
            Mnemonic::Cntr => 0x8000,
            Mnemonic::Jsrl => 0xA000,
            Mnemonic::Rtsl => 0xC000,
            Mnemonic::Jmpl => 0xE000,
        }
    }

    /// What the values of a statement are counted from.
    pub(crate) fn origin(self) -> u32
        ensures { result ≡ mnemonic_origin self }
    {
        match self {
            Mnemonic::Jsrl | Mnemonic::Jmpl => u32::from(VECTOR_RAM_START),
            _ => 0,
        }
    }

    /// The places of a statement's operands, in the order of the source.
    pub(crate) fn places(self) -> &'static [Place]
        ensures { result.now ≡ places_of self }
    {
        match self {
            Mnemonic::Vctr => &[LONG_X, LONG_Y, LONG_Z],
            Mnemonic::Svec => &[SHORT_X, SHORT_Y, SHORT_Z],
            Mnemonic::Stat => &[COLOUR, INTENSITY],
            Mnemonic::Scal => &[BINARY_SCALE, LINEAR_SCALE],
            Mnemonic::Jsrl | Mnemonic::Jmpl => &[TARGET],
            Mnemonic::Cntr | Mnemonic::Halt | Mnemonic::Rtsl => &[],
        }
    }
}
