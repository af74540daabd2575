ghost use Rattle.std.specs.Prelude.{◌≡◌, ◌-◌, ◌%◌, ◌/◌, true, false};
ghost use Rattle.cpu_alu.specs.Arithmetic.{adc_of, binary_adc, compare_of, overflows, sbc_of};
ghost use Rattle.cpu_alu.specs.Flags.{flags_of};
ghost use Rattle.cpu_alu.specs.Meaning.{IsDecimal, IsDecimalDifference, IsDecimalSum, IsDifference, IsSum, KeepsModes};

use crate::Flags;
use crate::decimal::{add_decimal, subtract_decimal};
use bit_words::is_set;

/// The sum of A, an operand and the carry, in binary or where D is set in decimal, and the status
/// byte after it. D and I stay.
#[tactic(auto, unfolding(crate::specs::Arithmetic::adc_of))]
pub fn adc(a: u8, m: u8, p: u8) -> (u8, u8)
    ensures value { result ≡ adc_of a m p }
    ensures clear { result.1 / 16 % 4 ≡ 0 }
    ensures modes { KeepsModes p result.1 }
    ensures binary { (flags_of p).decimal ≡ false → IsSum a m p result }
    ensures decimal { (flags_of p).decimal ≡ true → IsDecimal a → IsDecimal m → IsDecimalSum a m p result }
{
    let flags = Flags::from_byte(p);
    let (sum, flags) = if flags.decimal {
        add_decimal(a, m, flags)
    } else {
        add_binary(a, m, flags)
    };
    (sum, flags.to_byte())
}

/// A less an operand and the borrow, in binary or where D is set in decimal, and the status byte
/// after it. A clear carry is a borrow. D and I stay, and all other flags are those of the binary
/// difference.
#[tactic(auto, unfolding(crate::specs::Arithmetic::sbc_of))]
pub fn sbc(a: u8, m: u8, p: u8) -> (u8, u8)
    ensures value { result ≡ sbc_of a m p }
    ensures clear { result.1 / 16 % 4 ≡ 0 }
    ensures modes { KeepsModes p result.1 }
    ensures binary { (flags_of p).decimal ≡ false → IsDifference a m p result }
    ensures decimal { (flags_of p).decimal ≡ true → IsDecimal a → IsDecimal m → IsDecimalDifference a m p result }
{
    let flags = Flags::from_byte(p);
    let (binary, after) = subtract_binary(a, m, flags);
    let difference = if flags.decimal {
        subtract_decimal(a, m, flags.carry)
    } else {
        binary
    };
    (difference, after.to_byte())
}

/// The status byte after a register is compared with an operand. V, D and I stay.
#[tactic(auto, unfolding(crate::specs::Arithmetic::compare_of))]
pub fn compare(r: u8, m: u8, p: u8) -> u8
    ensures value { result ≡ compare_of r m p }
    ensures clear { result / 16 % 4 ≡ 0 }
    ensures modes { KeepsModes p result }
{
    let flags = Flags {
        carry: r >= m,
        ..Flags::from_byte(p)
    };
    flags.with_result(r.wrapping_sub(m)).to_byte()
}

/// The binary sum, and the flags after it.
#[tactic(auto, unfolding(crate::specs::Arithmetic::binary_adc))]
fn add_binary(a: u8, m: u8, flags: Flags) -> (u8, Flags)
    ensures { result ≡ binary_adc a m flags }
{
    let (sum, carry) = a.carrying_add(m, flags.carry);
    let overflow = has_overflowed(a, m, sum);
    let flags = Flags {
        overflow,
        carry,
        ..flags
    };
    (sum, flags.with_result(sum))
}

/// The binary difference, and the flags after it.
#[tactic(auto, unfolding(crate::specs::Arithmetic::binary_adc))]
fn subtract_binary(a: u8, m: u8, flags: Flags) -> (u8, Flags)
    ensures { result ≡ binary_adc a (255 - m) flags }
{
    let (difference, borrow) = a.borrowing_sub(m, !flags.carry);
    let overflow = has_overflowed(a, 0xFF - m, difference);
    let flags = Flags {
        overflow,
        carry: !borrow,
        ..flags
    };
    (difference, flags.with_result(difference))
}

/// Whether two bytes agree in bit 7, and their sum doesn't.
#[tactic(auto, unfolding(crate::specs::Arithmetic::overflows))]
fn has_overflowed(a: u8, m: u8, sum: u8) -> bool
    ensures { result ≡ overflows a m sum }
{
    is_set(a, 7) == is_set(m, 7) && is_set(a, 7) != is_set(sum, 7)
}
