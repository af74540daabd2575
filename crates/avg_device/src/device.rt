ghost use Rattle.std.specs.Prelude.{◌≡◌, ◌+◌, ◌≤◌};
ghost use Rattle.board_base.specs.Ticks.{made, ticks};
ghost use Rattle.board_base.specs.Trail.{Extended};
ghost use Rattle.avg_device.specs.Tick.{vg_gives, vg_tick};

use crate::control::{go, reset};
use crate::unit::VectorUnit;
use board_base::{CLOCK_END, Device, Trail, VectorMemory, VgState};

/// How a vector generator moves over many clocks.
pub trait Moves {
    /// Does the `n` clocks from `from` on, and appends their strokes.
    fn run(state: &mut VgState, memory: &VectorMemory, from: u64, n: u64, trail: &mut Trail)
        requires room { n ≤ trail.old.spare }
        requires clocks { from + n ≤ CLOCK_END }
        ensures state { state.new ≡ ticks (vg_tick memory.now) from n state.old }
        ensures records { Extended trail.old trail.new (made (vg_tick memory.now) vg_gives from n state.old) };
}

impl<M: Moves> VectorUnit for Device<VgState, M> {
    ghost device = { λ v. v.device };

    fn load(&mut self, state: &VgState) {
        *self.change() = *state;
    }

    fn advance(&mut self, memory: &VectorMemory, from: u64, n: u64, trail: &mut Trail) {
        M::run(self.change(), memory, from, n, trail);
    }

    fn go(&mut self) {
        go(self.change());
    }

    fn reset(&mut self) {
        reset(self.change());
    }

    fn halted(&self) -> bool {
        self.get().halted
    }

    fn state(&self) -> VgState {
        *self.get()
    }
}
