ghost use Rattle.std.specs.Prelude.{◌≡◌, ◌<◌};
ghost use Rattle.pokey_chip.specs.Registers.{all_pot, channel_written, pot_of, register_read, register_written, requests_enabled, timers_started};

use crate::channel::Channel;
use crate::tick::long_register;
use board_base::PokeyState;

// Registers that are written (POKEY C012294 data sheet): 0 to 7 are AUDF and AUDC of channels 1 to
// 4, and those without a name here do nothing.

pub(crate) const AUDF1: u8 = 0x0;

pub(crate) const AUDC4: u8 = 0x7;

pub(crate) const AUDCTL: u8 = 0x8;

pub(crate) const STIMER: u8 = 0x9;

pub(crate) const POTGO: u8 = 0xB;

pub(crate) const IRQEN: u8 = 0xE;

pub(crate) const SKCTL: u8 = 0xF;

// Registers that are read: those without a name here give FF.

pub(crate) const POT0: u8 = 0x0;

pub(crate) const POT7: u8 = 0x7;

pub(crate) const ALLPOT: u8 = 0x8;

/// The register that gives the low byte of the long polynomial register.
pub const RANDOM: u8 = 0xA;

pub(crate) const IRQST: u8 = 0xE;

/// The count of a pot, as far as its target.
fn pot(state: &PokeyState, which: u8) -> u8
    requires { which < 8 }
    ensures { result ≡ pot_of state.now which }
{
    state.pot.min(state.targets[which as usize])
}

/// ALLPOT: a bit is 1 while its pot is still counted.
#[tactic(auto, using(crate::proofs::PotLemmas::pots), unfolding(crate::specs::Registers::all_pot))]
fn pots_counted(state: &PokeyState) -> u8
    ensures { result ≡ all_pot state.now }
{
    let pot = state.pot;
    let mut byte = 0;
    for n in 0..8usize {
        byte = 2 * byte + u8::from(pot < state.targets[7 - n]);
    }
    byte
}

/// The byte that a register gives.
#[tactic(auto, unfolding(crate::specs::Registers::register_read))]
pub(crate) fn read_register(state: &PokeyState, reg: u8) -> u8
    requires { reg < 16 }
    ensures { result ≡ register_read reg state.now }
{
    match reg {
        POT0..=POT7 => pot(state, reg),
        ALLPOT => pots_counted(state),
        RANDOM => (long_register(state) % 256) as u8,
        IRQST => 0xF8 + state.irqst,
        _ => 0xFF,
    }
}

/// Writes AUDF or AUDC of a channel.
#[tactic(auto, unfolding(crate::specs::Registers::channel_written))]
fn write_channel(state: &mut PokeyState, reg: u8, value: u8)
    requires { reg < 8 }
    ensures { state.new ≡ channel_written reg value state.old }
{
    let k = reg as usize / 2;
    if reg % 2 == 0 {
        state.audf[k] = value;
    } else {
        state.audc[k] = value;
    }
}

/// Begins the period of each channel.
#[tactic(auto, unfolding(crate::specs::Registers::timers_started))]
fn start_timers(state: &mut PokeyState)
    ensures { state.new ≡ timers_started state.old }
{
    state.left = [
        Channel::First.period(&state.audf, state.audctl),
        Channel::Second.period(&state.audf, state.audctl),
        Channel::Third.period(&state.audf, state.audctl),
        Channel::Fourth.period(&state.audf, state.audctl),
    ];
    state.tone = 0;
}

/// Enables requests, and takes back those that aren't enabled.
#[tactic(auto, using(crate::proofs::BitLemmas::bit_joins), unfolding(crate::specs::Registers::requests_enabled))]
fn enable_requests(state: &mut PokeyState, value: u8)
    ensures { state.new ≡ requests_enabled value state.old }
{
    state.irqen = value % 8;
    state.irqst |= 7 - state.irqen;
}

/// Writes a register.
#[tactic(auto, unfolding(crate::specs::Registers::register_written))]
pub(crate) fn write_register(state: &mut PokeyState, reg: u8, value: u8)
    requires { reg < 16 }
    ensures { state.new ≡ register_written reg value state.old }
{
    match reg {
        AUDF1..=AUDC4 => write_channel(state, reg, value),
        AUDCTL => state.audctl = value,
        STIMER => start_timers(state),
        POTGO => state.pot = 0,
        IRQEN => enable_requests(state, value),
        SKCTL => state.skctl = value,
        _ => {}
    }
}
