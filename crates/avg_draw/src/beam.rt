ghost use Rattle.std.specs.Prelude.{◌≡◌, ◌-◌, ◌*◌, ◌/◌, ◌^◌, max, ◌<◌, ◌≤◌, pos, neg_ℤ, ◌+ℤ◌, ◌≤ℤ◌};
ghost use Rattle.avg_draw.specs.Beam.{binary_digits, clocks_of, delta_of, held};

use board_base::BEAM_EDGE;

/// The bound of the beam to each side.
const EDGE: i32 = BEAM_EDGE as i32;

/// The linear and the binary scale in one.
#[tactic(auto, using(crate::proofs::Scales::scale_bound, crate::proofs::Scales::scale_shift))]
fn scale(lin: u8, bin: u8) -> u16
    requires { bin < 8 }
    ensures value { result ≡ (256 - lin) * 2 ^ (7 - bin) }
    ensures wide { result ≤ 32768 }
{
    (256 - u16::from(lin)) * (1 << (7 - bin))
}

/// How far the beam goes for a distance of a vector, under the linear and the binary scale.
#[tactic(auto, using(crate::proofs::Scales::delta_low, crate::proofs::Scales::delta_high), unfolding(crate::specs::Beam::delta_of))]
pub fn delta(d: i16, lin: u8, bin: u8) -> i32
    requires low { neg_ℤ (pos 4096) ≤ℤ d }
    requires high { d ≤ℤ pos 4095 }
    requires bin { bin < 8 }
    ensures value { result ≡ delta_of d lin bin }
    ensures low { neg_ℤ (pos (2 ^ 27)) ≤ℤ result }
    ensures high { result ≤ℤ pos (2 ^ 27) }
{
    i32::from(d) * i32::from(scale(lin, bin))
}

/// The beam after a move, held within `BEAM_EDGE` to each side.
#[tactic(auto, unfolding(crate::specs::Beam::held))]
pub fn move_beam(at: i32, delta: i32) -> i32
    requires at_low { neg_ℤ (pos (2 ^ 30)) ≤ℤ at }
    requires at_high { at ≤ℤ pos (2 ^ 30) }
    requires delta_low { neg_ℤ (pos (2 ^ 27)) ≤ℤ delta }
    requires delta_high { delta ≤ℤ pos (2 ^ 27) }
    ensures value { result ≡ held (at +ℤ delta) }
    ensures low { neg_ℤ (pos (2 ^ 30)) ≤ℤ result }
    ensures high { result ≤ℤ pos (2 ^ 30) }
{
    (at + delta).clamp(-EDGE, EDGE)
}

/// The binary digits of a distance.
#[tactic(auto, using(crate::proofs::Scales::digits_are))]
fn digits(n: u16) -> u16
    requires { n < 8192 }
    ensures value { result ≡ binary_digits n }
    ensures few { result ≤ 13 }
{
    (2 * n + 1).ilog2() as u16
}

/// The clocks for this many digits.
#[tactic(auto, using(crate::proofs::Scales::power_bound, crate::proofs::Scales::power_shift, crate::proofs::Scales::power_halved))]
fn clocks(digits: u16, bin: u8) -> u16
    requires few { digits ≤ 13 }
    requires bin { bin < 8 }
    ensures value { result ≡ max 1 (2 ^ digits / 2 ^ bin) }
    ensures longest { result ≤ 8192 }
{
    1 << digits.saturating_sub(u16::from(bin))
}

/// The clocks of a draw.
#[tactic(auto, using(crate::proofs::Scales::either_bound, crate::proofs::Scales::either_digits), unfolding(crate::specs::Beam::clocks_of))]
pub fn draw_clocks(dx: i16, dy: i16, bin: u8) -> u16
    requires dx_low { neg_ℤ (pos 4096) ≤ℤ dx }
    requires dx_high { dx ≤ℤ pos 4095 }
    requires dy_low { neg_ℤ (pos 4096) ≤ℤ dy }
    requires dy_high { dy ≤ℤ pos 4095 }
    requires bin { bin < 8 }
    ensures value { result ≡ clocks_of dx dy bin }
    ensures some { 1 ≤ result }
    ensures longest { result ≤ 8192 }
{
    // It has as many digits as the longer of the two.
    let either = dx.unsigned_abs() | dy.unsigned_abs();
    clocks(digits(either), bin)
}
