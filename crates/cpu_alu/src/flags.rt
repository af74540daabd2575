ghost use Rattle.std.specs.Prelude.{◌≡◌, ◌+◌, ◌*◌, ◌%◌, ◌/◌};

use bit_words::is_set;

/// The six flags of the processor, as a status byte holds them.
#[derive(Clone, Copy, PartialEq, Eq)]
pub struct Flags {
    pub negative: bool,
    pub overflow: bool,
    pub decimal: bool,
    pub interrupt: bool,
    pub zero: bool,
    pub carry: bool,
}

impl Flags {
    ghost use Rattle.cpu_alu.specs.Flags.{byte_of, flags_of, with_result};

    /// The flags of a status byte. Its bits 4 and 5 are left out.
    #[tactic(auto, using(crate::proofs::StatusLemmas::byte_of_flags), unfolding(crate::specs::Flags::flags_of))]
    pub fn from_byte(p: u8) -> Flags
        ensures value { result ≡ flags_of p }
        ensures back { byte_of result + p / 16 % 4 * 16 ≡ p }
    {
        Flags {
            negative: is_set(p, 7),
            overflow: is_set(p, 6),
            decimal: is_set(p, 3),
            interrupt: is_set(p, 2),
            zero: is_set(p, 1),
            carry: is_set(p, 0),
        }
    }

    /// The status byte with these flags.
    #[tactic(auto, using(crate::proofs::StatusLemmas::flags_of_byte), unfolding(crate::specs::Flags::byte_of))]
    pub fn to_byte(self) -> u8
        ensures value { result ≡ byte_of self }
        ensures clear { result / 16 % 4 ≡ 0 }
        ensures back { flags_of result ≡ self }
    {
        u8::from(self.negative) * 128
            + u8::from(self.overflow) * 64
            + u8::from(self.decimal) * 8
            + u8::from(self.interrupt) * 4
            + u8::from(self.zero) * 2
            + u8::from(self.carry)
    }

    /// These flags with N and Z of a result.
    #[tactic(auto, unfolding(crate::specs::Flags::with_result))]
    pub(crate) fn with_result(self, value: u8) -> Flags
        ensures { result ≡ with_result value self }
    {
        Flags {
            negative: is_set(value, 7),
            zero: value == 0,
            ..self
        }
    }
}
