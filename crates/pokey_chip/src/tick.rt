ghost use Rattle.std.specs.Prelude.{◌≡◌, ◌+◌, ◌-◌, ◌^◌, ◌<◌, ◌≤◌, All};
ghost use Rattle.board_base.specs.Trail.{Extended};
ghost use Rattle.pokey_poly.specs.Shift.{width_of};
ghost use Rattle.pokey_timer.specs.Prescaler.{pulsed};
ghost use Rattle.pokey_chip.specs.Tick.{base_pulses, change, channel_ticked, channels_ticked, clocked, filtered, is_held, is_pulsed, left_after, level, levels_of, line_pulses, long_register, new_tone, passed, pokey_gives, pokey_tick, pot_counted, pots_rise, prescaled, request, requested, rolled, signal, toned, tone_of, underflow_effect, underflows};

use crate::bits::{clear_bit, put_bit, put_pass};
use crate::channel::Channel;
use crate::control::{
    FAST_POT_SCAN, FOUR_BITS, HIGH_PASS_1, HIGH_PASS_2, NINE_BITS, NO_FIVE_BITS, PURE_TONE,
    SLOW_BASE_CLOCK, VOLUME_ONLY,
};
use bit_words::is_set;
use board_base::{
    LONGEST_PERIOD, POT_LIMIT, PRESCALER_BASE, PRESCALER_LINE, PokeyState, Record, Trail,
};
use pokey_poly::Poly;

/// Whether the polynomial registers and the prescalers are held.
pub(crate) fn is_held(skctl: u8) -> bool
    ensures { result ≡ is_held skctl }
{
    skctl % 4 == 0
}

/// The register with all its bits set.
#[inline(always)]
pub(crate) fn all_ones(poly: Poly) -> u32
    ensures { result ≡ 2 ^ width_of poly - 1 }
{
    match poly {
        Poly::Four => 0xF,
        Poly::Five => 0x1F,
        Poly::Nine => 0x1FF,
        Poly::Seventeen => 0x1FFFF,
    }
}

/// A polynomial register one clock later.
fn roll(held: bool, poly: Poly, r: u32) -> u32
    requires { r < 2 ^ width_of poly }
    ensures value { result ≡ rolled held poly r }
    ensures in_range { result < 2 ^ width_of poly }
{
    if held { all_ones(poly) } else { poly.shift(r) }
}

/// A prescaler one clock later.
#[tactic(auto, unfolding(pokey_timer::specs::Prescaler::counted))]
fn prescale(held: bool, period: u8, count: u8) -> u8
    requires { count < period }
    ensures value { result ≡ prescaled held period count }
    ensures in_range { result < period }
{
    if held || count + 1 == period {
        0
    } else {
        count + 1
    }
}

/// The first step of a clock: the polynomial registers and the prescalers.
#[tactic(auto, unfolding(crate::specs::Tick::clocked))]
fn clock_registers(state: &mut PokeyState)
    ensures { state.new ≡ clocked state.old }
{
    let held = is_held(state.skctl);
    state.poly4 = roll(held, Poly::Four, u32::from(state.poly4)) as u8;
    state.poly5 = roll(held, Poly::Five, u32::from(state.poly5)) as u8;
    state.poly9 = roll(held, Poly::Nine, u32::from(state.poly9)) as u16;
    state.poly17 = roll(held, Poly::Seventeen, state.poly17);
    state.pre28 = prescale(held, PRESCALER_BASE, state.pre28);
    state.pre114 = prescale(held, PRESCALER_LINE, state.pre114);
}

/// Whether a prescaler that isn't held pulses in the next clock.
#[tactic(auto, unfolding(pokey_timer::specs::Prescaler::pulsed))]
fn wraps(count: u8, period: u8) -> bool
    requires { count < period }
    ensures { result ≡ pulsed period count }
{
    count + 1 == period
}

/// Whether the prescaler by 114 pulses in the next clock.
fn line_pulses(state: &PokeyState) -> bool
    ensures { result ≡ line_pulses state.now }
{
    !is_held(state.skctl) && wraps(state.pre114, PRESCALER_LINE)
}

/// Whether the base clock pulses in the next clock.
fn base_pulses(state: &PokeyState) -> bool
    ensures { result ≡ base_pulses state.now }
{
    if is_held(state.skctl) {
        false
    } else if is_set(state.audctl, SLOW_BASE_CLOCK) {
        wraps(state.pre114, PRESCALER_LINE)
    } else {
        wraps(state.pre28, PRESCALER_BASE)
    }
}

/// Whether the pots are counted in the next clock.
fn pots_rise(state: &PokeyState) -> bool
    ensures { result ≡ pots_rise state.now }
{
    is_set(state.skctl, FAST_POT_SCAN) || line_pulses(state)
}

/// The second step of a clock: the pot count.
#[tactic(auto, unfolding(crate::specs::Tick::pot_counted))]
fn count_pot(state: &mut PokeyState, rise: bool)
    ensures { state.new ≡ pot_counted rise state.old }
{
    if rise && state.pot < POT_LIMIT {
        state.pot += 1;
    }
}

/// Whether a channel gets a pulse, in a clock in which the base clock pulses or doesn't.
fn is_pulsed(base: bool, audctl: u8, channel: Channel) -> bool
    ensures { result ≡ is_pulsed base audctl channel }
{
    !channel.is_still(audctl) && (channel.is_on_chip_clock(audctl) || base)
}

/// Whether a channel underflows in the next clock.
#[tactic(auto, using(crate::proofs::CountLaws::counts))]
fn underflows(state: &PokeyState, base: bool, channel: Channel) -> bool
    ensures { result ≡ underflows base state.now channel }
{
    is_pulsed(base, state.audctl, channel) && state.left[channel.index()] <= 1
}

/// The pulses left of a channel after the next clock.
#[tactic(auto, using(crate::proofs::CountLaws::counts))]
fn left_after(state: &PokeyState, base: bool, channel: Channel) -> u32
    ensures value { result ≡ left_after base state.now channel }
    ensures low { 1 ≤ result }
    ensures high { result ≤ LONGEST_PERIOD }
{
    let left = state.left[channel.index()];
    if !is_pulsed(base, state.audctl, channel) {
        left
    } else if left <= 1 {
        channel.period(&state.audf, state.audctl)
    } else {
        left - 1
    }
}

/// IRQST with the request `k` made, where it is enabled.
fn request_made(state: &PokeyState, k: u32) -> u8
    requires { k < 3 }
    ensures value { result ≡ request k state.now }
    ensures in_range { result < 8 }
{
    let irqst = state.irqst;
    if is_set(state.irqen, k) {
        clear_bit(irqst, k)
    } else {
        irqst
    }
}

/// IRQST after an underflow.
#[tactic(auto, unfolding(crate::specs::Tick::requested))]
fn requests(state: &PokeyState, channel: Channel) -> u8
    ensures value { result ≡ requested channel state.now }
    ensures in_range { result < 8 }
{
    match channel {
        Channel::First => request_made(state, 0),
        Channel::Second => request_made(state, 1),
        Channel::Third => state.irqst,
        Channel::Fourth => request_made(state, 2),
    }
}

/// The long register.
pub(crate) fn long_register(state: &PokeyState) -> u32
    ensures value { result ≡ long_register state.now }
    ensures in_range { result < 131072 }
{
    if is_set(state.audctl, NINE_BITS) {
        u32::from(state.poly9)
    } else {
        state.poly17
    }
}

/// The tone bit of a channel.
fn tone_bit(state: &PokeyState, channel: Channel) -> bool
    ensures { result ≡ tone_of channel state.now }
{
    is_set(state.tone, channel.index() as u32)
}

/// The tone bit of a channel after an underflow, with the channel's AUDC.
fn next_tone(state: &PokeyState, audc: u8, channel: Channel) -> bool
    ensures { result ≡ new_tone audc channel state.now }
{
    if !is_set(audc, NO_FIVE_BITS) && !is_set(state.poly5, 0) {
        tone_bit(state, channel)
    } else if is_set(audc, PURE_TONE) {
        !tone_bit(state, channel)
    } else if is_set(audc, FOUR_BITS) {
        is_set(state.poly4, 0)
    } else {
        long_register(state) % 2 == 1
    }
}

/// The tone bits after an underflow.
#[tactic(auto, unfolding(crate::specs::Tick::toned))]
fn tones(state: &PokeyState, channel: Channel) -> u8
    ensures value { result ≡ toned channel state.now }
    ensures in_range { result < 16 }
{
    let k = channel.index();
    let bit = next_tone(state, state.audc[k], channel);
    put_bit(state.tone, k as u32, bit)
}

/// The high-pass bits after an underflow.
#[tactic(auto, unfolding(crate::specs::Tick::passed))]
fn passes(state: &PokeyState, channel: Channel) -> u8
    ensures value { result ≡ passed channel state.now }
    ensures in_range { result < 4 }
{
    match channel {
        Channel::First | Channel::Second => state.pass,
        Channel::Third => put_pass(state.pass, 0, tone_bit(state, Channel::First)),
        Channel::Fourth => put_pass(state.pass, 1, tone_bit(state, Channel::Second)),
    }
}

/// The fourth step of a clock: what a channel's underflow does.
#[tactic(auto, unfolding(crate::specs::Tick::underflow_effect))]
pub(crate) fn underflow_effect(state: &mut PokeyState, underflow: bool, channel: Channel)
    ensures { state.new ≡ underflow_effect underflow channel state.old }
{
    if underflow {
        let irqst = requests(state, channel);
        let tone = tones(state, channel);
        let pass = passes(state, channel);
        *state = PokeyState {
            irqst,
            tone,
            pass,
            ..*state
        };
    }
}

/// The third and fourth step of a clock for a channel: it counts its pulse, and its underflow takes
/// effect where it has one.
#[tactic(auto, using(crate::proofs::CountLaws::places), unfolding(crate::specs::Tick::channel_ticked, crate::specs::Tick::with_left))]
fn tick_channel(state: &mut PokeyState, base: bool, channel: Channel)
    ensures { state.new ≡ channel_ticked base channel state.old }
{
    let underflow = underflows(state, base, channel);
    state.left[channel.index()] = left_after(state, base, channel);
    underflow_effect(state, underflow, channel);
}

/// The third and fourth step of a clock: channels 1 to 4 in order.
#[tactic(auto, unfolding(crate::specs::Tick::channels_ticked))]
fn tick_channels(state: &mut PokeyState, base: bool)
    ensures { state.new ≡ channels_ticked base state.old }
{
    tick_channel(state, base, Channel::First);
    tick_channel(state, base, Channel::Second);
    tick_channel(state, base, Channel::Third);
    tick_channel(state, base, Channel::Fourth);
}

/// A tone bit after a high-pass filter.
fn filter(on: bool, bit: bool, tone: bool) -> bool
    ensures { result ≡ filtered on bit tone }
{
    if on && bit { !tone } else { tone }
}

/// A channel's signal.
#[tactic(auto, unfolding(crate::specs::Tick::signal))]
fn signal_of(state: &PokeyState, channel: Channel) -> bool
    ensures { result ≡ signal state.now channel }
{
    let tone = tone_bit(state, channel);
    match channel {
        Channel::First => filter(
            is_set(state.audctl, HIGH_PASS_1),
            is_set(state.pass, 0),
            tone,
        ),
        Channel::Second => filter(
            is_set(state.audctl, HIGH_PASS_2),
            is_set(state.pass, 1),
            tone,
        ),
        Channel::Third | Channel::Fourth => tone,
    }
}

/// The level of a channel.
fn level(state: &PokeyState, channel: Channel) -> u8
    ensures value { result ≡ level state.now channel }
    ensures in_range { result < 16 }
{
    let audc = state.audc[channel.index()];
    if is_set(audc, VOLUME_ONLY) || signal_of(state, channel) {
        audc % 16
    } else {
        0
    }
}

/// The four levels.
#[tactic(auto, unfolding(crate::specs::Tick::levels_of))]
pub(crate) fn levels(state: &PokeyState) -> [u8; 4]
    ensures value { result ≡ levels_of state.now }
    ensures in_range { All (λ level. level < 16) result }
{
    [
        level(state, Channel::First),
        level(state, Channel::Second),
        level(state, Channel::Third),
        level(state, Channel::Fourth),
    ]
}

/// One clock.
#[tactic(auto, unfolding(crate::specs::Tick::pokey_tick))]
fn tick(state: &mut PokeyState)
    ensures { state.new ≡ pokey_tick state.old }
{
    let base = base_pulses(state);
    let rise = pots_rise(state);
    clock_registers(state);
    count_pot(state, rise);
    tick_channels(state, base);
    state.last = levels(state);
}

/// Records the levels of a clock where they changed.
#[tactic(auto, using(crate::proofs::RecordLemmas::unchanged), unfolding(crate::specs::Tick::change))]
pub(crate) fn record_change(before: &[u8; 4], now: &[u8; 4], clock: u64, trail: &mut Trail)
    requires { 1 ≤ trail.old.spare }
    ensures records { Extended trail.old trail.new (change clock before.now now.now) }
    ensures few { trail.old.spare ≤ trail.new.spare + 1 }
{
    if *now != *before {
        trail.push(Record::Levels {
            clock,
            l1: now[0],
            l2: now[1],
            l3: now[2],
            l4: now[3],
        });
    }
}

/// One clock with its record.
#[tactic(auto, unfolding(crate::specs::Tick::pokey_gives))]
pub(crate) fn tick_into(state: &mut PokeyState, clock: u64, trail: &mut Trail)
    requires { 1 ≤ trail.old.spare }
    ensures state { state.new ≡ pokey_tick state.old }
    ensures records { Extended trail.old trail.new (pokey_gives clock state.old) }
    ensures few { trail.old.spare ≤ trail.new.spare + 1 }
{
    let before = state.last;
    tick(state);
    record_change(&before, &state.last, clock, trail);
}
