ghost use Rattle.std.specs.Prelude.{◌≡◌, ◌+◌, ◌<◌, ◌≤◌, [], ◌∷◌, min};
ghost use Rattle.board_base.specs.Ticks.{times};
ghost use Rattle.pokey_chip.specs.Moves.{IsLeft, left_of_voice};
ghost use Rattle.pokey_chip.specs.Pulses.{rises_of};
ghost use Rattle.pokey_chip.specs.Tick.{is_held, prescaled};

use crate::control::FAST_POT_SCAN;
use crate::tick::is_held;
use crate::voice::Voices;
use bit_words::is_set;
use board_base::{CLOCK_END, POT_LIMIT, PRESCALER_BASE, PRESCALER_LINE, PokeyState};
use pokey_timer::{prescaler_after, pulses_in};

/// How often the pots are counted in the next `n` clocks.
#[inline(always)]
#[tactic(auto, using(crate::proofs::RegisterLaws::pots))]
fn pot_rises(state: &PokeyState, n: u64) -> u64
    requires { n ≤ CLOCK_END }
    ensures { result ≡ rises_of n state.now }
{
    if is_set(state.skctl, FAST_POT_SCAN) {
        n
    } else if is_held(state.skctl) {
        0
    } else {
        pulses_in(state.pre114, PRESCALER_LINE, n)
    }
}

/// The pot count after `n` clocks.
#[inline(always)]
#[tactic(auto, using(crate::proofs::RegisterLaws::few_rises))]
fn pot_after(state: &PokeyState, n: u64) -> u8
    requires { n ≤ CLOCK_END }
    ensures { result ≡ min POT_LIMIT (state.now.pot + rises_of n state.now) }
{
    (u64::from(state.pot) + pot_rises(state, n)).min(u64::from(POT_LIMIT)) as u8
}

/// A prescaler after `n` clocks, one or more, in which it is held or runs.
#[inline(always)]
#[tactic(auto, using(crate::proofs::RegisterLaws::prescales))]
fn prescaled(held: bool, period: u8, count: u8, n: u64) -> u8
    requires count { count < period }
    requires some { 1 ≤ n }
    requires n { n ≤ CLOCK_END }
    ensures value { result ≡ times (prescaled held period) n count }
    ensures below { result < period }
{
    if held {
        0
    } else {
        prescaler_after(count, period, n)
    }
}

/// Puts into a POKEY what the channels, the prescalers and the pots have counted in a move of `n`
/// clocks, one or more, that began with `start`.
#[inline(always)]
pub(crate) fn put_counts(state: &mut PokeyState, start: &PokeyState, voices: &Voices, n: u64)
    requires some { 1 ≤ n }
    requires n { n ≤ CLOCK_END }
    requires first { IsLeft voices.now.first n }
    requires second { IsLeft voices.now.second n }
    requires third { IsLeft voices.now.third n }
    requires fourth { IsLeft voices.now.fourth n }
    ensures { state.new ≡ record state.old {
      left = left_of_voice voices.now.first n ∷ left_of_voice voices.now.second n ∷ left_of_voice voices.now.third n ∷ left_of_voice voices.now.fourth n ∷ [];
      pre28 = times (prescaled (is_held start.now.skctl) PRESCALER_BASE) n start.now.pre28;
      pre114 = times (prescaled (is_held start.now.skctl) PRESCALER_LINE) n start.now.pre114;
      pot = min POT_LIMIT (start.now.pot + rises_of n start.now);
    } }
{
    let held = is_held(start.skctl);
    *state = PokeyState {
        left: voices.left(n),
        pre28: prescaled(held, PRESCALER_BASE, start.pre28, n),
        pre114: prescaled(held, PRESCALER_LINE, start.pre114, n),
        pot: pot_after(start, n),
        ..*state
    };
}
