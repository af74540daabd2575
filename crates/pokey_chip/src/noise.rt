ghost use Rattle.std.specs.Prelude.{◌≡◌, ℕ, ◌+◌, ◌%◌, ◌^◌, ◌<◌, ◌≤◌, false};
ghost use Rattle.bit_words.specs.Bits.{is_bit};
ghost use Rattle.board_base.specs.Ticks.{times};
ghost use Rattle.pokey_poly.specs.Shift.{width_of, IsAhead};
ghost use Rattle.pokey_chip.specs.Noise.{IsNoise, IsWord, IsWordFor, long_poly};
ghost use Rattle.pokey_chip.specs.Tick.{is_held, long_register, rolled};

use crate::control::NINE_BITS;
use crate::tick::{all_ones, is_held, long_register};
use bit_words::is_set;
use board_base::{CLOCK_END, PokeyState};
use pokey_poly::{Poly, REACH};

/// The clocks after which the 4-bit register is back at its value.
const FOUR_PERIOD: u64 = 15;
/// The clocks after which the 5-bit register is back at its value.
pub const FIVE_PERIOD: u64 = 31;

/// The noise in a move: the bits that leave the polynomial registers, as words with the lowest bit
/// first. Those of the long register begin at the clock `since` of the move; those of 4 and 5 bits
/// begin at its start, as these registers repeat soon. The long register that no channel listens to
/// has none.
#[derive(Clone, Copy)]
pub struct Noise {
    pub since: u64,
    pub four: u64,
    pub five: u64,
    pub long: u64,
}

/// The outputs of the polynomial registers in a clock: of that of 4 bits, of that of 5, and of the
/// long one.
#[derive(Clone, Copy)]
pub struct Outputs {
    pub four: bool,
    pub five: bool,
    pub long: bool,
}

/// The long register that the channels listen to.
#[inline(always)]
fn long_poly(audctl: u8) -> Poly
    ensures { result ≡ long_poly audctl }
{
    if is_set(audctl, NINE_BITS) {
        Poly::Nine
    } else {
        Poly::Seventeen
    }
}

/// The word `REACH` shifts later.
#[inline(always)]
#[tactic(auto, using(crate::proofs::NoiseLaws::words))]
fn later(poly: Poly, word: u64) -> u64
    requires { IsAhead poly (word % 2 ^ width_of poly) (REACH + width_of poly) word }
    ensures { (r : ℕ) (since : ℕ) → IsWord poly r since word → IsWord poly r (since + REACH) result }
{
    poly.ahead(poly.window(word, REACH))
}

/// The output of a register that is held or runs, so many shifts after the first of a word.
#[inline(always)]
#[tactic(auto, using(crate::proofs::NoiseLaws::words))]
fn output(held: bool, poly: Poly, word: u64, k: u64) -> bool
    requires ahead { held ≡ false → IsAhead poly (word % 2 ^ width_of poly) (REACH + width_of poly) word }
    requires reach { k ≤ REACH }
    ensures { (r : ℕ) (n : ℕ) → (held ≡ false → IsWordFor poly r word k n) → 1 ≤ n → result ≡ is_bit (times (rolled held poly) n r) 0 }
{
    held || poly.output(word, k)
}

/// A register that is held or runs, so many shifts after the first of a word.
#[inline(always)]
#[tactic(auto, using(crate::proofs::NoiseLaws::words))]
fn register(held: bool, poly: Poly, word: u64, k: u64) -> u32
    requires ahead { held ≡ false → IsAhead poly (word % 2 ^ width_of poly) (REACH + width_of poly) word }
    requires reach { k ≤ REACH }
    ensures value { (r : ℕ) (n : ℕ) → (held ≡ false → IsWordFor poly r word k n) → 1 ≤ n → result ≡ times (rolled held poly) n r }
    ensures in_range { result < 2 ^ width_of poly }
{
    if held {
        all_ones(poly)
    } else {
        poly.window(word, k)
    }
}

/// A register that has no word after `n` clocks, one or more, in which it is held or runs.
#[inline(always)]
#[tactic(auto, using(crate::proofs::RegisterLaws::rolls))]
fn rolled(held: bool, poly: Poly, r: u32, n: u64) -> u32
    requires in_range { r < 2 ^ width_of poly }
    requires some { 1 ≤ n }
    ensures value { result ≡ times (rolled held poly) n r }
    ensures in_range { result < 2 ^ width_of poly }
{
    if held {
        all_ones(poly)
    } else {
        poly.leap(r, n)
    }
}

impl Noise {
    /// The noise at the start of a move.
    #[inline(always)]
    pub fn of(state: &PokeyState) -> Noise
        ensures noise { IsNoise state.now result }
        ensures since { result.since ≡ 0 }
    {
        Noise {
            since: 0,
            four: Poly::Four.ahead(u32::from(state.poly4)),
            five: Poly::Five.ahead(u32::from(state.poly5)),
            long: long_poly(state.audctl).ahead(long_register(state)),
        }
    }

    /// The word of the long register `REACH` clocks later.
    #[inline(always)]
    fn later(self, start: &PokeyState) -> Noise
        requires noise { IsNoise start.now self }
        requires running { is_held start.now.skctl ≡ false }
        requires early { self.since ≤ CLOCK_END }
        ensures noise { IsNoise start.now result }
        ensures since { result.since ≡ self.since + REACH }
    {
        Noise {
            since: self.since + REACH,
            four: self.four,
            five: self.five,
            long: later(long_poly(start.audctl), self.long),
        }
    }

    /// Words that reach to the clock `at`. That of a register that is held stays what it is.
    #[inline(always)]
    pub fn reaching(self, start: &PokeyState, at: u64) -> Noise
        requires noise { IsNoise start.now self }
        requires since { self.since ≤ at }
        requires early { at ≤ CLOCK_END }
        ensures noise { IsNoise start.now result }
        ensures since { result.since ≤ at }
        ensures reach { at ≤ result.since + REACH }
    {
        if is_held(start.skctl) {
            return Noise { since: at, ..self };
        }
        let mut noise = self;
        while at - noise.since > REACH {
            noise = noise.later(start);
        }
        noise
    }

    /// The output of the 5-bit register in the clock `at`.
    #[inline(always)]
    pub fn five(self, start: &PokeyState, at: u64) -> bool
        requires noise { IsNoise start.now self }
        requires some { 1 ≤ at }
        ensures { result ≡ is_bit (times (rolled (is_held start.now.skctl) Poly.Five) at start.now.poly5) 0 }
    {
        output(
            is_held(start.skctl),
            Poly::Five,
            self.five,
            at % FIVE_PERIOD,
        )
    }

    /// The outputs in the clock `at`, to which the words reach.
    #[inline(always)]
    pub fn outputs(self, start: &PokeyState, at: u64) -> Outputs
        requires noise { IsNoise start.now self }
        requires some { 1 ≤ at }
        requires since { self.since ≤ at }
        requires reach { at ≤ self.since + REACH }
        ensures four { result.four ≡ is_bit (times (rolled (is_held start.now.skctl) Poly.Four) at start.now.poly4) 0 }
        ensures five { result.five ≡ is_bit (times (rolled (is_held start.now.skctl) Poly.Five) at start.now.poly5) 0 }
        ensures long { result.long ≡ is_bit (times (rolled (is_held start.now.skctl) (long_poly start.now.audctl)) at (long_register start.now)) 0 }
    {
        let held = is_held(start.skctl);
        let k = at - self.since;
        Outputs {
            four: output(held, Poly::Four, self.four, at % FOUR_PERIOD),
            five: self.five(start, at),
            long: output(held, long_poly(start.audctl), self.long, k),
        }
    }

    /// The 9-bit register after `n` clocks, to which the words reach.
    #[inline(always)]
    fn nine(self, start: &PokeyState, n: u64) -> u32
        requires noise { IsNoise start.now self }
        requires some { 1 ≤ n }
        requires since { self.since ≤ n }
        requires reach { n ≤ self.since + REACH }
        ensures value { result ≡ times (rolled (is_held start.now.skctl) Poly.Nine) n start.now.poly9 }
        ensures in_range { result < 512 }
    {
        let held = is_held(start.skctl);
        if is_set(start.audctl, NINE_BITS) {
            register(held, Poly::Nine, self.long, n - self.since)
        } else {
            rolled(held, Poly::Nine, u32::from(start.poly9), n)
        }
    }

    /// The 17-bit register after `n` clocks, to which the words reach.
    #[inline(always)]
    fn seventeen(self, start: &PokeyState, n: u64) -> u32
        requires noise { IsNoise start.now self }
        requires some { 1 ≤ n }
        requires since { self.since ≤ n }
        requires reach { n ≤ self.since + REACH }
        ensures value { result ≡ times (rolled (is_held start.now.skctl) Poly.Seventeen) n start.now.poly17 }
        ensures in_range { result < 131072 }
    {
        let held = is_held(start.skctl);
        if is_set(start.audctl, NINE_BITS) {
            rolled(held, Poly::Seventeen, start.poly17, n)
        } else {
            register(held, Poly::Seventeen, self.long, n - self.since)
        }
    }

    /// The 4-bit and the 5-bit register after `n` clocks.
    #[inline(always)]
    fn short(self, start: &PokeyState, n: u64) -> (u8, u8)
        requires noise { IsNoise start.now self }
        requires some { 1 ≤ n }
        ensures four { result.0 ≡ times (rolled (is_held start.now.skctl) Poly.Four) n start.now.poly4 }
        ensures four_fits { result.0 < 16 }
        ensures five { result.1 ≡ times (rolled (is_held start.now.skctl) Poly.Five) n start.now.poly5 }
        ensures five_fits { result.1 < 32 }
    {
        let held = is_held(start.skctl);
        let four = register(held, Poly::Four, self.four, n % FOUR_PERIOD) as u8;
        let five = register(held, Poly::Five, self.five, n % FIVE_PERIOD) as u8;
        (four, five)
    }

    /// Puts the registers after `n` clocks, one or more, into a POKEY that has those of the start.
    #[inline(always)]
    pub fn put(self, state: &mut PokeyState, n: u64)
        requires noise { IsNoise state.old self }
        requires some { 1 ≤ n }
        requires since { self.since ≤ n }
        requires early { n ≤ CLOCK_END }
        ensures { state.new ≡ record state.old {
          poly4 = times (rolled (is_held state.old.skctl) Poly.Four) n state.old.poly4;
          poly5 = times (rolled (is_held state.old.skctl) Poly.Five) n state.old.poly5;
          poly9 = times (rolled (is_held state.old.skctl) Poly.Nine) n state.old.poly9;
          poly17 = times (rolled (is_held state.old.skctl) Poly.Seventeen) n state.old.poly17;
        } }
    {
        let noise = self.reaching(state, n);
        let (poly4, poly5) = noise.short(state, n);
        let poly9 = noise.nine(state, n) as u16;
        let poly17 = noise.seventeen(state, n);
        *state = PokeyState {
            poly4,
            poly5,
            poly9,
            poly17,
            ..*state
        };
    }
}
