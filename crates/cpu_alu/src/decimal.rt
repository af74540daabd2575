ghost use Rattle.std.specs.Prelude.{◌≡◌, ◌+◌, ◌≤◌, ◌<◌, ◌%◌, pos, negsuc, ◌+ℤ◌, ◌-ℤ◌, ◌≤ℤ◌};
ghost use Rattle.std.specs.Int.{cast_signed, from_bool, w8};
ghost use Rattle.cpu_alu.specs.Decimal.{
  borrowed_digit,
  carried_digit,
  corrected_difference,
  corrected_sum,
  decimal_adc,
  decimal_sbc,
  high_part,
  leaves_byte,
  modulo,
  signed_sum,
};

use crate::Flags;

/// The decimal sum, and the flags after it.
#[tactic(auto, unfolding(crate::specs::Decimal::decimal_adc))]
pub(crate) fn add_decimal(a: u8, m: u8, flags: Flags) -> (u8, Flags)
    ensures { result ≡ decimal_adc a m flags }
{
    let low = carry_digit(a % 16 + m % 16 + u8::from(flags.carry));
    let sum = u16::from(high(a)) + u16::from(high(m)) + u16::from(low);
    let corrected = correct_sum(sum);
    let (binary, _) = a.carrying_add(m, flags.carry);
    let flags = Flags {
        negative: (sum / 128) % 2 == 1,
        overflow: leaves_signed_byte(sum_signed(a, m, low)),
        zero: binary == 0,
        carry: corrected >= 256,
        ..flags
    };
    ((corrected % 256) as u8, flags)
}

/// The decimal difference.
#[tactic(auto, unfolding(crate::specs::Decimal::decimal_sbc))]
pub(crate) fn subtract_decimal(a: u8, m: u8, carry: bool) -> u8
    ensures { result ≡ decimal_sbc a m carry }
{
    let low = borrow_digit(low_difference(a, m, carry));
    low_byte(correct_difference(difference(a, m, low)))
}

/// The difference of the low digits and the borrow.
fn low_difference(a: u8, m: u8, carry: bool) -> i16
    ensures value { result ≡ pos (a % 16) -ℤ pos (m % 16) +ℤ pos (from_bool carry) -ℤ pos 1 }
    ensures least { negsuc 15 ≤ℤ result }
    ensures most { result ≤ℤ pos 15 }
{
    i16::from(a % 16 + u8::from(carry)) - i16::from(m % 16 + 1)
}

/// The difference of the high digits, and that of the low ones.
fn difference(a: u8, m: u8, low: i16) -> i16
    requires least { negsuc 15 ≤ℤ low }
    requires most { low ≤ℤ pos 15 }
    ensures value { result ≡ pos (high_part a) -ℤ pos (high_part m) +ℤ low }
    ensures least { negsuc 255 ≤ℤ result }
    ensures most { result ≤ℤ pos 255 }
{
    i16::from(high(a)) - i16::from(high(m)) + low
}

/// The remainder of a number by 256, which is never negative.
fn low_byte(number: i16) -> u8
    ensures { result ≡ modulo number 256 }
{
    number.rem_euclid(256) as u8
}

/// The high digit of a byte, at its place.
#[tactic(auto, unfolding(crate::specs::Decimal::high_part))]
fn high(byte: u8) -> u8
    ensures value { result ≡ high_part byte }
    ensures small { result ≤ 240 }
{
    byte - byte % 16
}

/// A sum of low digits: from 10 on it is corrected, and carries into the high digit.
#[tactic(auto, unfolding(crate::specs::Decimal::carried_digit))]
fn carry_digit(sum: u8) -> u8
    requires { sum < 32 }
    ensures value { result ≡ carried_digit sum }
    ensures small { result < 32 }
{
    if sum >= 10 { (sum + 6) % 16 + 16 } else { sum }
}

/// A sum with the high digit corrected.
#[tactic(auto, unfolding(crate::specs::Decimal::corrected_sum))]
fn correct_sum(sum: u16) -> u16
    requires { sum < 512 }
    ensures value { result ≡ corrected_sum sum }
    ensures small { result < 608 }
{
    if sum >= 160 { sum + 96 } else { sum }
}

/// The high digit of a byte, at its place, as a signed byte counts it.
fn signed_high(byte: u8) -> i16
    ensures value { result ≡ cast_signed w8 (high_part byte) }
    ensures least { negsuc 127 ≤ℤ result }
    ensures most { result ≤ℤ pos 127 }
{
    i16::from(high(byte).cast_signed())
}

/// The sum with both high digits taken as signed.
#[tactic(auto, unfolding(crate::specs::Decimal::signed_sum))]
fn sum_signed(a: u8, m: u8, low: u8) -> i16
    requires { low < 32 }
    ensures { result ≡ signed_sum a m low }
{
    signed_high(a) + signed_high(m) + i16::from(low)
}

/// Whether a number lies outside a signed byte.
#[tactic(auto, unfolding(crate::specs::Decimal::leaves_byte))]
fn leaves_signed_byte(number: i16) -> bool
    ensures { result ≡ leaves_byte number }
{
    number < -128 || number > 127
}

/// A difference of low digits: below 0 it is corrected, and borrows from the high digit.
#[tactic(auto, unfolding(crate::specs::Decimal::borrowed_digit))]
fn borrow_digit(difference: i16) -> i16
    requires least { negsuc 15 ≤ℤ difference }
    requires most { difference ≤ℤ pos 15 }
    ensures value { result ≡ borrowed_digit difference }
    ensures least { negsuc 15 ≤ℤ result }
    ensures most { result ≤ℤ pos 15 }
{
    if difference < 0 {
        (difference - 6).rem_euclid(16) - 16
    } else {
        difference
    }
}

/// A difference with the high digit corrected.
#[tactic(auto, unfolding(crate::specs::Decimal::corrected_difference))]
fn correct_difference(difference: i16) -> i16
    requires least { negsuc 255 ≤ℤ difference }
    requires most { difference ≤ℤ pos 255 }
    ensures { result ≡ corrected_difference difference }
{
    if difference < 0 {
        difference - 96
    } else {
        difference
    }
}
