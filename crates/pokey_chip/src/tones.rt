ghost use Rattle.std.specs.Prelude.{◌≡◌, ℕ, ◌+◌, ◌<◌, ◌||◌, All, if◌then◌else◌, slice_index};
ghost use Rattle.bit_words.specs.Bits.{is_bit};
ghost use Rattle.pokey_chip.specs.declared.channel.Channel.{Channel as AnyChannel};
ghost use Rattle.pokey_chip.specs.Channels.{place};
ghost use Rattle.pokey_chip.specs.Tick.{filtered};
ghost use Rattle.pokey_chip.specs.Tones.{has, levels_on, next_tone, of_channel, requests_made, IsTuning};

use crate::control::{FOUR_BITS, HIGH_PASS_1, HIGH_PASS_2, NO_FIVE_BITS, PURE_TONE, VOLUME_ONLY};
use crate::noise::Outputs;
use bit_words::is_set;
use board_base::PokeyState;

/// The word of four bits, one for each channel.
#[inline(always)]
#[tactic(auto, using(crate::proofs::ToneLaws::words))]
pub(crate) fn four_bits(first: bool, second: bool, third: bool, fourth: bool) -> u8
    ensures bits { (c : AnyChannel) → has result c ≡ of_channel first second third fourth c }
    ensures in_range { result < 16 }
{
    u8::from(first) + 2 * u8::from(second) + 4 * u8::from(third) + 8 * u8::from(fourth)
}

/// All four channels, or none.
#[inline(always)]
#[tactic(auto, using(crate::proofs::ToneLaws::words))]
fn all(bit: bool) -> u8
    ensures bits { (c : AnyChannel) → has result c ≡ bit }
    ensures in_range { result < 16 }
{
    if bit { 15 } else { 0 }
}

/// The bits of one word where a mask is 1, and of another where it is 0.
#[inline(always)]
#[tactic(auto, using(crate::proofs::ToneLaws::picks))]
fn pick(mask: u8, ones: u8, zeros: u8) -> u8
    ensures bits { (k : ℕ) → k < 8 → is_bit result k ≡ (if is_bit mask k then is_bit ones k else is_bit zeros k) }
    ensures four { mask < 16 → zeros < 16 → result < 16 }
    ensures two { mask < 4 → zeros < 4 → result < 4 }
{
    (ones & mask) | (zeros & !mask)
}

/// What the registers say of the tones while none is written, one bit for each channel.
#[derive(Clone, Copy)]
pub struct Tuning {
    pub free: u8,
    pub pure: u8,
    pub four: u8,
    pub steady: u8,
    pub passed: u8,
}

/// The channels in whose AUDC a bit is set.
#[inline(always)]
fn channels_with(audc: &[u8; 4], k: u32) -> u8
    requires { k < 8 }
    ensures bits { (c : AnyChannel) → has result c ≡ is_bit (slice_index audc.now (place c)) k }
    ensures in_range { result < 16 }
{
    four_bits(
        is_set(audc[0], k),
        is_set(audc[1], k),
        is_set(audc[2], k),
        is_set(audc[3], k),
    )
}

impl Tuning {
    /// What the registers of a POKEY say.
    #[inline(always)]
    pub fn of(state: &PokeyState) -> Tuning
        ensures { IsTuning state.now result }
    {
        Tuning {
            free: channels_with(&state.audc, NO_FIVE_BITS),
            pure: channels_with(&state.audc, PURE_TONE),
            four: channels_with(&state.audc, FOUR_BITS),
            steady: channels_with(&state.audc, VOLUME_ONLY),
            passed: four_bits(
                is_set(state.audctl, HIGH_PASS_1),
                is_set(state.audctl, HIGH_PASS_2),
                false,
                false,
            ),
        }
    }
}

/// The tone bits and the high-pass bits in a move, and the channels that have underflowed in it.
#[derive(Clone, Copy)]
pub struct Tones {
    pub tone: u8,
    pub pass: u8,
    pub underflowed: u8,
    ghost tone_bits: { tone < 16 },
    ghost pass_bits: { pass < 4 },
}

impl Tones {
    /// Those at the start of a move.
    #[inline(always)]
    pub fn of(state: &PokeyState) -> Tones
        ensures tone { result.tone ≡ state.now.tone }
        ensures pass { result.pass ≡ state.now.pass }
        ensures underflowed { result.underflowed ≡ 0 }
    {
        Tones {
            tone: state.tone,
            pass: state.pass,
            underflowed: 0,
        }
    }

    /// Those after a clock in which some channels underflow. Channels 3 and 4 take the tone bits of
    /// channels 1 and 2 that are new.
    #[inline(always)]
    pub fn after(self, tuning: &Tuning, outputs: Outputs, due: u8) -> Tones
        requires { due < 16 }
        ensures tone { (c : AnyChannel) → has result.tone c ≡ (if has due c then next_tone tuning.now outputs c (has self.tone c) else has self.tone c) }
        ensures pass { (k : ℕ) → k < 2 → is_bit result.pass k ≡ (if is_bit due (k + 2) then is_bit result.tone k else is_bit self.pass k) }
        ensures underflowed { (c : AnyChannel) → has result.underflowed c ≡ (has self.underflowed c || has due c) }
    {
        let noise = pick(tuning.four, all(outputs.four), all(outputs.long));
        let next = pick(tuning.pure, !self.tone, noise);
        let changing = due & (tuning.free | all(outputs.five));
        let tone = pick(changing, next, self.tone);
        Tones {
            tone,
            pass: pick(due >> 2, tone, self.pass),
            underflowed: self.underflowed | due,
        }
    }

    /// The channels that are on: those whose signal is 1, and those that give their volume always.
    #[inline(always)]
    pub fn on(self, tuning: &Tuning) -> u8
        ensures { (c : AnyChannel) → has result c ≡ (has tuning.now.steady c || filtered (has tuning.now.passed c) (has self.pass c) (has self.tone c)) }
    {
        pick(self.pass & tuning.passed, !self.tone, self.tone) | tuning.steady
    }
}

/// The four levels, by the channels that are on.
#[inline(always)]
#[tactic(auto, unfolding(crate::specs::Tones::levels_on))]
pub(crate) fn levels_on(on: u8, audc: &[u8; 4]) -> [u8; 4]
    ensures value { result ≡ levels_on on audc.now }
    ensures in_range { All (λ level. level < 16) result }
{
    [
        if is_set(on, 0) { audc[0] % 16 } else { 0 },
        if is_set(on, 1) { audc[1] % 16 } else { 0 },
        if is_set(on, 2) { audc[2] % 16 } else { 0 },
        if is_set(on, 3) { audc[3] % 16 } else { 0 },
    ]
}

/// IRQST after underflows of some channels: those of channels 1, 2 and 4 are the requests of bits
/// 0, 1 and 2, where they are enabled.
#[inline(always)]
#[tactic(auto, using(crate::proofs::ToneLaws::requests))]
fn requests_made(underflowed: u8, irqen: u8, irqst: u8) -> u8
    requires enabled { irqen < 8 }
    requires standing { irqst < 8 }
    ensures value { result ≡ requests_made underflowed irqen irqst }
    ensures in_range { result < 8 }
{
    let asked = (underflowed & 3) | ((underflowed >> 1) & 4);
    irqst & !(asked & irqen)
}

/// Puts the tones of a move and the levels into a POKEY that has those of the start, and makes the
/// requests of the channels that have underflowed.
#[inline(always)]
pub(crate) fn put_tones(state: &mut PokeyState, tones: Tones, last: [u8; 4])
    requires { All (λ level. level < 16) last }
    ensures { state.new ≡ record state.old {
      tone = tones.tone;
      pass = tones.pass;
      irqst = requests_made tones.underflowed state.old.irqen state.old.irqst;
      last = last;
    } }
{
    *state = PokeyState {
        tone: tones.tone,
        pass: tones.pass,
        irqst: requests_made(tones.underflowed, state.irqen, state.irqst),
        last,
        ..*state
    };
}
