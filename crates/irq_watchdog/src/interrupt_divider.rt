ghost use Rattle.std.specs.Prelude.{◌≡◌, ◌+◌, ◌/◌, ◌%◌, ◌^◌, ◌<◌, ◌≤◌, nat_le, if◌then◌else◌};
ghost use Rattle.board_base.specs.Ticks.{times};
ghost use Rattle.irq_watchdog.specs.Tick.{divider_tick};

use crate::unit::DividerUnit;
use board_base::{DIVIDER_PERIOD, Device, DividerState, Pending, WATCHDOG_WRAPS};

/// The clocks from a wrap to the next.
const PERIOD: u64 = DIVIDER_PERIOD as u64;

/// The wraps that ask for a reset.
const WRAPS: u64 = WATCHDOG_WRAPS as u64;

/// A divider that moves any number of clocks at the same cost.
pub type Divider = Device<DividerState>;

/// The phase after `n` clocks.
#[tactic(auto, using(crate::proofs::Moves::rounds))]
fn phase_after(phase: u16, n: u64) -> u16
    requires { phase < DIVIDER_PERIOD }
    ensures { result ≡ (phase + n) % DIVIDER_PERIOD }
{
    ((u64::from(phase) + n % PERIOD) % PERIOD) as u16
}

/// The wraps of `n` clocks from this phase: whole rounds first, and then the rest.
#[tactic(auto, using(crate::proofs::Moves::rounds))]
fn wraps_within(phase: u16, n: u64) -> u64
    requires { phase < DIVIDER_PERIOD }
    ensures value { result ≡ (phase + n) / DIVIDER_PERIOD }
    ensures few { result ≤ 2 ^ 52 }
{
    n / PERIOD + (u64::from(phase) + n % PERIOD) / PERIOD
}

/// The reset that is pending when the watchdog has counted this far.
fn pending_after(pending: Pending, count: u64) -> Pending
    ensures { result ≡ (if nat_le WATCHDOG_WRAPS count then Pending.Watchdog else pending) }
{
    if count >= WRAPS {
        Pending::Watchdog
    } else {
        pending
    }
}

/// The state after `n` clocks, with any number of wraps among them.
#[tactic(auto, using(crate::proofs::Moves::moves), unfolding(crate::proofs::Moves::divided))]
fn moved_over_wraps(state: DividerState, n: u64) -> DividerState
    ensures { result ≡ times divider_tick n state }
{
    let wraps = wraps_within(state.phase, n);
    let count = u64::from(state.dog) + wraps;
    DividerState {
        phase: phase_after(state.phase, n),
        irq: state.irq || wraps >= 1,
        dog: (count % WRAPS) as u8,
        pending: pending_after(state.pending, count),
    }
}

impl DividerUnit for Divider {
    ghost device = { λ d. d.device };

    fn load(&mut self, state: &DividerState) {
        *self.change() = *state;
    }

    #[tactic(auto, using(crate::proofs::Moves::moves_within_a_round))]
    fn advance(&mut self, n: u64) {
        let state = self.change();
        if n < PERIOD - u64::from(state.phase) {
            state.phase += n as u16;
        } else {
            *state = moved_over_wraps(*state, n);
        }
    }

    fn irq(&self) -> bool {
        self.get().irq
    }

    fn pending(&self) -> Pending {
        self.get().pending
    }

    fn quiet(&self) -> u64 {
        PERIOD - u64::from(self.get().phase)
    }

    fn bit3k(&self) -> bool {
        self.get().phase / 0x100 % 2 == 1
    }

    fn acknowledge(&mut self) {
        self.change().irq = false;
    }

    fn clear(&mut self) {
        self.change().dog = 0;
    }

    fn taken(&mut self) {
        self.change().pending = Pending::Nothing;
    }

    fn state(&self) -> DividerState {
        *self.get()
    }
}
