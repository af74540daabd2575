ghost use Rattle.std.specs.Prelude.{◌≡◌, MatchOption};
ghost use Rattle.pokey_chip.specs.Quiet.{AnswersEachLag, IsEverQuiet, IsQuietBefore};
ghost use Rattle.pokey_chip.specs.Pulses.{asks, FirstFails, HasNoUnderflow, MakesNoRequest, NoneRequests};

use crate::channel::Channel;
use crate::clock_source::ClockSource;
use bit_words::is_set;
use board_base::{PRESCALER_BASE, PRESCALER_LINE, PokeyState, sooner};
use pokey_timer::clocks_to_underflow;

/// The clocks up to and with the next underflow of a channel, where one comes.
fn underflow_in(state: &PokeyState, channel: Channel) -> Option<u64>
    ensures { FirstFails (HasNoUnderflow state.now channel) result }
{
    let left = state.left[channel.index()];
    match ClockSource::of(state, channel) {
        ClockSource::Never => None,
        ClockSource::ChipClock => Some(u64::from(left)),
        ClockSource::By28 { count } => Some(clocks_to_underflow(left, count, PRESCALER_BASE)),
        ClockSource::By114 { count } => Some(clocks_to_underflow(left, count, PRESCALER_LINE)),
    }
}

/// Whether an underflow of a channel makes a request.
fn asks(state: &PokeyState, channel: Channel) -> bool
    ensures { result ≡ asks state.now channel }
{
    match channel {
        Channel::First => is_set(state.irqen, 0),
        Channel::Second => is_set(state.irqen, 1),
        Channel::Third => false,
        Channel::Fourth => is_set(state.irqen, 2),
    }
}

/// The clocks up to and with the next request of a channel, where one comes.
fn request_in(state: &PokeyState, channel: Channel) -> Option<u64>
    ensures { FirstFails (MakesNoRequest state.now channel) result }
{
    if asks(state, channel) {
        underflow_in(state, channel)
    } else {
        None
    }
}

/// The clocks up to and with the next request of any channel, where one comes.
#[tactic(auto, using(crate::proofs::RequestLaws::requests))]
fn next_request(state: &PokeyState) -> Option<u64>
    ensures { FirstFails (NoneRequests state.now) result }
{
    let upper = sooner(
        request_in(state, Channel::Second),
        request_in(state, Channel::Fourth),
    );
    sooner(request_in(state, Channel::First), upper)
}

/// The clocks up to and with the first after which a request stands, while no register is written.
#[tactic(auto, using(crate::proofs::RequestLaws::requests))]
pub(crate) fn quiet_clocks(state: &PokeyState) -> Option<u64>
    ensures exact { MatchOption result (IsEverQuiet state.now) (λ n. IsQuietBefore state.now n) }
    ensures lagging { AnswersEachLag state.now result }
{
    if state.irqst != 7 {
        return Some(0);
    }
    next_request(state)
}
