ghost use Rattle.std.specs.Prelude.{◌≡◌, ◌%◌, ◌/◌};
ghost use Rattle.cpu_alu.specs.Logic.{bit_of, nz_of};
ghost use Rattle.cpu_alu.specs.Meaning.{KeepsModes};

use crate::Flags;
use bit_words::is_set;

/// The status byte after A is tested with an operand: N and V are bits 7 and 6 of the operand, and
/// Z says that no bit is set in both. D, I and C stay.
#[tactic(auto, using(crate::proofs::Modes::bit_keeps, crate::proofs::CommonBits::no_common_bit), unfolding(crate::specs::Logic::bit_of))]
pub fn bit(a: u8, m: u8, p: u8) -> u8
    ensures value { result ≡ bit_of a m p }
    ensures clear { result / 16 % 4 ≡ 0 }
    ensures modes { KeepsModes p result }
{
    let flags = Flags {
        negative: is_set(m, 7),
        overflow: is_set(m, 6),
        zero: a & m == 0,
        ..Flags::from_byte(p)
    };
    flags.to_byte()
}

/// The status byte with N and Z of a result. V, D, I and C stay.
#[tactic(auto, using(crate::proofs::Modes::nz_keeps), unfolding(crate::specs::Logic::nz_of))]
pub fn nz(r: u8, p: u8) -> u8
    ensures value { result ≡ nz_of r p }
    ensures clear { result / 16 % 4 ≡ 0 }
    ensures modes { KeepsModes p result }
{
    Flags::from_byte(p).with_result(r).to_byte()
}
