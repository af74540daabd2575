ghost use Rattle.std.specs.Prelude.{◌≡◌, ◌%◌, ◌/◌};
ghost use Rattle.cpu_alu.specs.Shifts.{asl_of, left_by, lsr_of, right_by, rol_of, ror_of, shifted};
ghost use Rattle.cpu_alu.specs.Meaning.{KeepsModes};

use crate::Flags;
use bit_words::is_set;

/// The operand shifted left with a 0 at the low end, and the status byte after it: C is its old
/// bit 7. V, D and I stay.
#[tactic(auto, using(crate::proofs::Modes::asl_keeps), unfolding(crate::specs::Shifts::asl_of))]
pub fn asl(m: u8, p: u8) -> (u8, u8)
    ensures value { result ≡ asl_of m p }
    ensures clear { result.1 / 16 % 4 ≡ 0 }
    ensures modes { KeepsModes p result.1 }
{
    after_shift(shift_left(m, false), is_set(m, 7), Flags::from_byte(p))
}

/// The operand shifted right with a 0 at the high end, and the status byte after it: C is its old
/// bit 0. V, D and I stay.
#[tactic(auto, using(crate::proofs::Modes::lsr_keeps), unfolding(crate::specs::Shifts::lsr_of))]
pub fn lsr(m: u8, p: u8) -> (u8, u8)
    ensures value { result ≡ lsr_of m p }
    ensures clear { result.1 / 16 % 4 ≡ 0 }
    ensures modes { KeepsModes p result.1 }
{
    after_shift(shift_right(m, false), is_set(m, 0), Flags::from_byte(p))
}

/// The operand shifted left with the old C at the low end, and the status byte after it: C is its
/// old bit 7. V, D and I stay.
#[tactic(auto, using(crate::proofs::Modes::rol_keeps), unfolding(crate::specs::Shifts::rol_of))]
pub fn rol(m: u8, p: u8) -> (u8, u8)
    ensures value { result ≡ rol_of m p }
    ensures clear { result.1 / 16 % 4 ≡ 0 }
    ensures modes { KeepsModes p result.1 }
{
    let flags = Flags::from_byte(p);
    after_shift(shift_left(m, flags.carry), is_set(m, 7), flags)
}

/// The operand shifted right with the old C at the high end, and the status byte after it: C is its
/// old bit 0. V, D and I stay.
#[tactic(auto, using(crate::proofs::Modes::ror_keeps), unfolding(crate::specs::Shifts::ror_of))]
pub fn ror(m: u8, p: u8) -> (u8, u8)
    ensures value { result ≡ ror_of m p }
    ensures clear { result.1 / 16 % 4 ≡ 0 }
    ensures modes { KeepsModes p result.1 }
{
    let flags = Flags::from_byte(p);
    after_shift(shift_right(m, flags.carry), is_set(m, 0), flags)
}

/// A shifted byte, and the status byte after it: C is the bit that was shifted out.
#[tactic(auto, unfolding(crate::specs::Shifts::shifted))]
fn after_shift(value: u8, carry: bool, flags: Flags) -> (u8, u8)
    ensures value { result ≡ shifted value carry flags }
    ensures clear { result.1 / 16 % 4 ≡ 0 }
{
    let flags = Flags { carry, ..flags };
    (value, flags.with_result(value).to_byte())
}

/// A byte shifted left by one, with this bit at the low end.
#[tactic(auto, using(crate::proofs::Bytes::left_with_zero, crate::proofs::Bytes::left_with_one))]
fn shift_left(m: u8, low: bool) -> u8
    ensures { result ≡ left_by low m }
{
    if low { (m << 1) + 1 } else { m << 1 }
}

/// A byte shifted right by one, with this bit at the high end.
#[tactic(auto, using(crate::proofs::Bytes::right_with_zero, crate::proofs::Bytes::right_with_one))]
fn shift_right(m: u8, high: bool) -> u8
    ensures { result ≡ right_by high m }
{
    if high { (m >> 1) + 128 } else { m >> 1 }
}
