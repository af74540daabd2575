ghost use Rattle.std.specs.Prelude.{◌≡◌, ◌<◌, if◌then◌else◌};

use cpu_alu::*;

const N: u8 = 0x80;

const V: u8 = 0x40;

const D: u8 = 0x08;

const Z: u8 = 0x02;

const C: u8 = 0x01;

fn when(condition: bool, flag: u8) -> u8
    ensures { result ≡ (if condition then flag else 0) }
{
    if condition { flag } else { 0 }
}

/// A decimal sum digit by digit, with the flags of the chip.
fn decimal_sum(a: u8, m: u8, carry: bool) -> (u8, u8) {
    let low = a % 16 + m % 16 + u8::from(carry);
    let half = low > 9;
    let low_digit = if half { (low + 6) % 16 } else { low };
    let high = a / 16 + m / 16 + u8::from(half);
    let signed = high % 16 / 8;
    let full = high > 9;
    let high_digit = if full { (high + 6) % 16 } else { high };
    let binary = u16::from(a) + u16::from(m) + u16::from(carry);
    let flags = [
        when(signed == 1, N),
        when(a / 128 == m / 128 && a / 128 != signed, V),
        D,
        when(binary % 256 == 0, Z),
        when(full, C),
    ];
    (
        high_digit.wrapping_mul(16).wrapping_add(low_digit),
        joined(flags),
    )
}

/// A decimal difference digit by digit, with the flags of the binary one.
fn decimal_difference(a: u8, m: u8, carry: bool) -> (u8, u8) {
    let (low, half) = digit_difference(a % 16, m % 16, !carry);
    let (high, _) = digit_difference(a / 16, m / 16, half);
    let taken = u16::from(m) + u16::from(!carry);
    let binary = (u16::from(a) + 512 - taken) % 256;
    let signed = binary / 128;
    let flags = [
        when(signed == 1, N),
        when(a / 128 != m / 128 && u16::from(a) / 128 != signed, V),
        D,
        when(binary == 0, Z),
        when(u16::from(a) >= taken, C),
    ];
    (high.wrapping_mul(16).wrapping_add(low), joined(flags))
}

/// A difference of digits, which skips six where it borrows.
fn digit_difference(a: u8, m: u8, borrow: bool) -> (u8, bool)
    requires a { a < 16 }
    requires m { m < 16 }
{
    let taken = m + u8::from(borrow);
    if a < taken {
        ((a + 26 - taken) % 16, true)
    } else {
        (a - taken, false)
    }
}

fn joined(flags: [u8; 5]) -> u8 {
    flags.iter().fold(0, |all, flag| all | *flag)
}

#[test]
fn every_decimal_sum(rt: HostRuntime) {
    for a in 0..=u8::MAX {
        for m in 0..=u8::MAX {
            assert_eq!(rt; adc(a, m, D), decimal_sum(a, m, false));
            assert_eq!(rt; adc(a, m, D | C), decimal_sum(a, m, true));
        }
    }
}

#[test]
fn every_decimal_difference(rt: HostRuntime) {
    for a in 0..=u8::MAX {
        for m in 0..=u8::MAX {
            assert_eq!(rt; sbc(a, m, D), decimal_difference(a, m, false));
            assert_eq!(rt; sbc(a, m, D | C), decimal_difference(a, m, true));
        }
    }
}
