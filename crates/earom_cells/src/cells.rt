ghost use Rattle.std.specs.Prelude.{◌≡◌, ◌<◌};
ghost use Rattle.board_base.specs.Ticks.{times};
ghost use Rattle.earom_cells.specs.Tick.{is_clock_high, is_not_c1_high, is_c2_high, is_selected, earom_tick, is_held, reads_out, completed, controlled};

use crate::unit::CellUnit;
use bit_words::is_set;
use board_base::{Device, EaromState, HOLD_CLOCKS};

/// An EAROM that moves any number of clocks at the same cost.
pub type Earom = Device<EaromState>;

/// Whether the clock line is high.
fn is_clock_high(control: u8) -> bool
    ensures { result ≡ is_clock_high control }
{
    is_set(control, 0)
}

/// Whether the not-C1 line is high.
fn is_not_c1_high(control: u8) -> bool
    ensures { result ≡ is_not_c1_high control }
{
    is_set(control, 1)
}

/// Whether the C2 line is high, which asks for an erase and not for a write.
fn is_c2_high(control: u8) -> bool
    ensures { result ≡ is_c2_high control }
{
    is_set(control, 2)
}

/// Whether the cells are selected.
fn is_selected(control: u8) -> bool
    ensures { result ≡ is_selected control }
{
    is_set(control, 3)
}

/// Whether an erase or a write is asked for.
fn is_held(control: u8) -> bool
    ensures { result ≡ is_held control }
{
    is_selected(control) && is_not_c1_high(control)
}

/// Whether a control write reads the addressed cell into the output latch.
fn reads_out(old: u8, new: u8) -> bool
    ensures { result ≡ reads_out old new }
{
    is_clock_high(old) && !is_clock_high(new) && is_selected(new) && !is_not_c1_high(new)
}

/// Erases the addressed cell, or writes it.
fn complete(state: &mut EaromState)
    ensures { state.new ≡ completed state.old }
{
    let cell = state.addr as usize;
    state.cells[cell] = if is_c2_high(state.control) {
        0xFF
    } else {
        state.cells[cell] & state.value
    };
    state.hold = HOLD_CLOCKS;
}

/// `n` clocks: a hold goes on, and is complete once.
#[tactic(auto, using(crate::proofs::Holds::moves), unfolding(crate::proofs::Holds::moved_by, crate::proofs::Holds::held_for))]
fn advance_state(state: &mut EaromState, n: u64)
    ensures { state.new ≡ times earom_tick n state.old }
{
    if !is_held(state.control) || state.hold >= HOLD_CLOCKS {
        return;
    }
    if n < u64::from(HOLD_CLOCKS - state.hold) {
        state.hold += n as u16;
    } else {
        complete(state);
    }
}

/// Writes the control bits, and reads the addressed cell into the output latch where they ask for
/// it.
#[tactic(auto, unfolding(crate::specs::Tick::controlled))]
fn write_control(state: &mut EaromState, value: u8)
    ensures { state.new ≡ controlled value state.old }
{
    let control = value % 16;
    if reads_out(state.control, control) {
        state.out = state.cells[state.addr as usize];
    }
    state.control = control;
    state.hold = 0;
}

impl CellUnit for Earom {
    ghost device = { λ e. e.device };

    fn load(&mut self, state: &EaromState) {
        *self.change() = *state;
    }

    fn advance(&mut self, n: u64) {
        advance_state(self.change(), n);
    }

    fn latch(&mut self, addr: u8, value: u8) {
        let state = self.change();
        *state = EaromState {
            addr,
            value,
            hold: 0,
            ..*state
        };
    }

    fn control(&mut self, value: u8) {
        write_control(self.change(), value);
    }

    fn output(&self) -> u8 {
        self.get().out
    }

    fn state(&self) -> EaromState {
        *self.get()
    }
}
