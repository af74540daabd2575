ghost use Rattle.std.specs.Prelude.{◌≡◌, ◌+◌, ◌<◌, ◌==◌, ◌≤◌, ◌⊎◌, All, [], ◌∷◌, if◌then◌else◌, min};
ghost use Rattle.pokey_chip.specs.declared.channel.Channel.{Channel as AnyChannel};
ghost use Rattle.pokey_chip.specs.Tones.{has, of_channel};
ghost use Rattle.pokey_chip.specs.Moves.{due_at, pulse_at, step_of, IsEarly, IsLeft, IsTimed, IsVoice, left_of_voice};
ghost use Rattle.pokey_chip.specs.ClockSources.{IsClockSource};
ghost use Rattle.pokey_chip.specs.Noise.{IsNoise};
ghost use Rattle.pokey_chip.specs.Skips.{AreSkipped, IsLastWithin, IsPairsLater, IsSetLater, IsSkipped, is_silent};

use crate::channel::Channel;
use crate::clock_source::ClockSource;
use crate::control::{HIGH_PASS_1, HIGH_PASS_2, NO_FIVE_BITS, PURE_TONE, VOLUME_ONLY};
use crate::noise::{FIVE_PERIOD, Noise};
use crate::tones::four_bits;
use bit_words::is_set;
use board_base::{CLOCK_END, LONGEST_PERIOD, PRESCALER_BASE, PRESCALER_LINE, PokeyState};

/// A channel in a move: what gives it its pulses, the pulse with which it underflows first, its
/// period in pulses and in clocks, and the clock of its next underflow, counted from the start of
/// the move.
#[derive(Clone, Copy)]
pub struct Voice {
    pub clock_source: ClockSource,
    pub first: u64,
    pub period: u32,
    pub step: u64,
    pub due: u64,
}

/// Whether the level of a channel with this AUDC is the same, be its tone bit 0 or 1.
#[inline(always)]
fn is_silent(audc: u8) -> bool
    ensures { result ≡ is_silent audc }
{
    audc % 16 == 0 || is_set(audc, VOLUME_ONLY)
}

/// The clock with which a pulse comes.
#[inline(always)]
fn clock_of(clock_source: ClockSource, pulse: u64) -> u64
    requires prescaler { IsClockSource clock_source }
    requires some { 1 ≤ pulse }
    requires few { pulse ≤ CLOCK_END + LONGEST_PERIOD }
    ensures { result ≡ due_at clock_source pulse }
{
    match clock_source {
        ClockSource::Never => u64::MAX,
        ClockSource::ChipClock => pulse,
        ClockSource::By28 { count } => pulse * u64::from(PRESCALER_BASE) - u64::from(count),
        ClockSource::By114 { count } => pulse * u64::from(PRESCALER_LINE) - u64::from(count),
    }
}

/// The pulse that comes with a clock; another number where none comes.
#[inline(always)]
fn pulse_at(clock_source: ClockSource, due: u64, none: u64) -> u64
    requires { IsEarly clock_source due }
    ensures { result ≡ pulse_at clock_source due none }
{
    match clock_source {
        ClockSource::Never => none,
        ClockSource::ChipClock => due,
        ClockSource::By28 { count } => (due + u64::from(count)) / u64::from(PRESCALER_BASE),
        ClockSource::By114 { count } => (due + u64::from(count)) / u64::from(PRESCALER_LINE),
    }
}

/// The clocks in which so many pulses come, after one of them; none where none does.
#[inline(always)]
fn clocks_between(clock_source: ClockSource, pulses: u32) -> u64
    ensures { result ≡ step_of clock_source pulses }
{
    let pulses = u64::from(pulses);
    match clock_source {
        ClockSource::Never => 0,
        ClockSource::ChipClock => pulses,
        ClockSource::By28 { .. } => pulses * u64::from(PRESCALER_BASE),
        ClockSource::By114 { .. } => pulses * u64::from(PRESCALER_LINE),
    }
}

impl Voice {
    /// A channel at the start of a move.
    #[inline(always)]
    #[tactic(auto, using(crate::proofs::VoiceLaws::begins))]
    fn of(state: &PokeyState, channel: Channel) -> Voice
        ensures { IsVoice channel 0 state.now result }
    {
        let clock_source = ClockSource::of(state, channel);
        let period = channel.period(&state.audf, state.audctl);
        let first = u64::from(state.left[channel.index()]);
        Voice {
            clock_source,
            first,
            period,
            step: clocks_between(clock_source, period),
            due: clock_of(clock_source, first),
        }
    }

    /// The clock of its next underflow after the clock `at`, in which it underflows where it is
    /// due.
    #[inline(always)]
    #[tactic(auto, using(crate::proofs::VoiceLaws::passes))]
    fn due_after(self, at: u64) -> u64
        requires timed { IsTimed self }
        requires at { at ≤ CLOCK_END }
        ensures { result ≡ (if self.due == at then self.due + self.step else self.due) }
    {
        if self.due == at {
            self.due + self.step
        } else {
            self.due
        }
    }

    /// The channel after the clock `at`, in which it underflows where it is due.
    #[inline(always)]
    fn after(self, at: u64) -> Voice
        requires timed { IsTimed self }
        requires at { at ≤ CLOCK_END }
        ensures { result ≡ record self { due = if self.due == at then self.due + self.step else self.due } }
    {
        Voice {
            due: self.due_after(at),
            ..self
        }
    }

    /// The clock of its last underflow up to the clock `n`; `n` where none comes.
    #[inline(always)]
    fn last_within(self, n: u64) -> u64
        requires timed { IsTimed self }
        requires n { n ≤ CLOCK_END }
        ensures { IsLastWithin self n result }
    {
        if n < self.due {
            return n;
        }
        n - (n - self.due) % self.step
    }

    /// The clock of its last underflow up to the clock `reach` that sets its tone bit to an output
    /// of noise; that of its next one, where none of the last 31 does.
    #[inline(always)]
    fn last_set(self, start: &PokeyState, noise: Noise, free: bool, reach: u64) -> u64
        requires noise { IsNoise start.now noise }
        requires timed { IsTimed self }
        requires reach { reach ≤ CLOCK_END }
        ensures { (result ≡ self.due) ⊎ IsSetLater start.now free self reach result }
    {
        if reach <= self.due {
            return self.due;
        }
        let mut at = reach - (reach - self.due) % self.step;
        let mut tries = 0;
        while at > self.due && tries < FIVE_PERIOD {
            if free || noise.five(start, at) {
                return at;
            }
            at -= self.step;
            tries += 1;
        }
        self.due
    }

    /// The clock of its last underflow up to the clock `reach` that an even number of others comes
    /// before.
    #[inline(always)]
    fn last_after_pairs(self, reach: u64) -> u64
        requires timed { IsTimed self }
        requires reach { reach ≤ CLOCK_END }
        ensures { (result ≡ self.due) ⊎ IsPairsLater self reach result }
    {
        if reach <= self.due {
            return self.due;
        }
        reach - (reach - self.due) % (2 * self.step)
    }

    /// The channel without the underflows up to the clock `reach` that leave no trace. It keeps all
    /// where its level depends on its tone bit, or it clocks a filter that is heard.
    #[inline(always)]
    fn skipping(self, start: &PokeyState, noise: Noise, audc: u8, heard: bool, reach: u64) -> Voice
        requires noise { IsNoise start.now noise }
        requires timed { IsTimed self }
        requires reach { reach ≤ CLOCK_END }
        ensures { IsSkipped start.now audc heard reach self result }
    {
        if heard || !is_silent(audc) {
            return self;
        }
        let free = is_set(audc, NO_FIVE_BITS);
        let due = if !is_set(audc, PURE_TONE) {
            self.last_set(start, noise, free, reach)
        } else if free {
            self.last_after_pairs(reach)
        } else {
            self.due
        };
        Voice { due, ..self }
    }

    /// The pulses left of the channel after `n` clocks.
    #[inline(always)]
    fn left(self, n: u64) -> u32
        requires n { n ≤ CLOCK_END }
        requires left { IsLeft self n }
        ensures value { result ≡ left_of_voice self n }
        ensures low { 1 ≤ result }
        ensures high { result ≤ LONGEST_PERIOD }
    {
        (pulse_at(self.clock_source, self.due, self.first) - self.clock_source.pulses(n)) as u32
    }
}

/// The four channels in a move.
#[derive(Clone, Copy)]
pub struct Voices {
    pub first: Voice,
    pub second: Voice,
    pub third: Voice,
    pub fourth: Voice,
}

impl Voices {
    /// The channels at the start of a move.
    #[inline(always)]
    pub fn of(state: &PokeyState) -> Voices
        ensures first { IsVoice Channel.First 0 state.now result.first }
        ensures second { IsVoice Channel.Second 0 state.now result.second }
        ensures third { IsVoice Channel.Third 0 state.now result.third }
        ensures fourth { IsVoice Channel.Fourth 0 state.now result.fourth }
    {
        Voices {
            first: Voice::of(state, Channel::First),
            second: Voice::of(state, Channel::Second),
            third: Voice::of(state, Channel::Third),
            fourth: Voice::of(state, Channel::Fourth),
        }
    }

    /// The channels without those underflows in the next `n` clocks that leave no trace. The last
    /// underflows of channels 3 and 4 copy the tone bits of channels 1 and 2, which are right by
    /// then.
    #[inline(always)]
    pub fn skipping(self, start: &PokeyState, noise: Noise, n: u64) -> Voices
        requires noise { IsNoise start.now noise }
        requires first { IsTimed self.first }
        requires second { IsTimed self.second }
        requires third { IsTimed self.third }
        requires fourth { IsTimed self.fourth }
        requires n { n ≤ CLOCK_END }
        ensures { AreSkipped start.now n self result }
    {
        if n < self.soonest() {
            return self;
        }
        let [audc1, audc2, audc3, audc4] = start.audc;
        let heard1 = is_set(start.audctl, HIGH_PASS_1) && !is_silent(audc1);
        let heard2 = is_set(start.audctl, HIGH_PASS_2) && !is_silent(audc2);
        let taken1 = self.third.last_within(n);
        let taken2 = self.fourth.last_within(n);
        Voices {
            first: self.first.skipping(start, noise, audc1, false, taken1),
            second: self.second.skipping(start, noise, audc2, false, taken2),
            third: self.third.skipping(start, noise, audc3, heard1, n),
            fourth: self.fourth.skipping(start, noise, audc4, heard2, n),
        }
    }

    /// The channels that are due in a clock, one bit for each.
    #[inline(always)]
    pub fn due(&self, at: u64) -> u8
        ensures bits { (c : AnyChannel) → has result c ≡ of_channel (self.now.first.due == at) (self.now.second.due == at) (self.now.third.due == at) (self.now.fourth.due == at) c }
        ensures in_range { result < 16 }
    {
        four_bits(
            self.first.due == at,
            self.second.due == at,
            self.third.due == at,
            self.fourth.due == at,
        )
    }

    /// The channels after the clock `at`, in which those underflow that are due.
    #[inline(always)]
    pub fn after(self, at: u64) -> Voices
        requires first { IsTimed self.first }
        requires second { IsTimed self.second }
        requires third { IsTimed self.third }
        requires fourth { IsTimed self.fourth }
        requires at { at ≤ CLOCK_END }
        ensures first { result.first ≡ record self.first { due = if self.first.due == at then self.first.due + self.first.step else self.first.due } }
        ensures second { result.second ≡ record self.second { due = if self.second.due == at then self.second.due + self.second.step else self.second.due } }
        ensures third { result.third ≡ record self.third { due = if self.third.due == at then self.third.due + self.third.step else self.third.due } }
        ensures fourth { result.fourth ≡ record self.fourth { due = if self.fourth.due == at then self.fourth.due + self.fourth.step else self.fourth.due } }
    {
        Voices {
            first: self.first.after(at),
            second: self.second.after(at),
            third: self.third.after(at),
            fourth: self.fourth.after(at),
        }
    }

    /// The pulses left of the channels after `n` clocks.
    #[inline(always)]
    pub fn left(&self, n: u64) -> [u32; 4]
        requires n { n ≤ CLOCK_END }
        requires first { IsLeft self.now.first n }
        requires second { IsLeft self.now.second n }
        requires third { IsLeft self.now.third n }
        requires fourth { IsLeft self.now.fourth n }
        ensures value { result ≡ left_of_voice self.now.first n ∷ left_of_voice self.now.second n ∷ left_of_voice self.now.third n ∷ left_of_voice self.now.fourth n ∷ [] }
        ensures range { All (λ left. (1 ≤ left) × (left ≤ LONGEST_PERIOD)) result }
    {
        [
            self.first.left(n),
            self.second.left(n),
            self.third.left(n),
            self.fourth.left(n),
        ]
    }

    /// The clock in which the next channel is due.
    #[inline(always)]
    pub fn soonest(&self) -> u64
        ensures { result ≡ min (min self.now.first.due self.now.second.due) (min self.now.third.due self.now.fourth.due) }
    {
        let lower = self.first.due.min(self.second.due);
        let upper = self.third.due.min(self.fourth.due);
        lower.min(upper)
    }
}
