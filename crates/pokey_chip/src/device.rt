ghost use Rattle.std.specs.Prelude.{◌≡◌, ◌+◌, ◌≤◌};
ghost use Rattle.board_base.specs.Ticks.{times};
ghost use Rattle.board_base.specs.Trail.{Extended};
ghost use Rattle.pokey_chip.specs.Tick.{levels_made, pokey_tick};

use crate::quiet::quiet_clocks;
use crate::registers::{read_register, write_register};
use crate::unit::SoundUnit;
use board_base::{CLOCK_END, Device, PokeyState, Trail};

/// How a POKEY moves over many clocks.
pub trait Moves {
    /// Does `n` clocks, the first of them `from`, and records the levels in each clock that changes
    /// them.
    fn run(state: &mut PokeyState, from: u64, n: u64, trail: &mut Trail)
        requires room { n ≤ trail.old.spare }
        requires clocks { from + n ≤ CLOCK_END }
        ensures state { state.new ≡ times pokey_tick n state.old }
        ensures records { Extended trail.old trail.new (levels_made from n state.old) };
}

impl<M: Moves> SoundUnit for Device<PokeyState, M> {
    ghost device = { λ p. p.device };

    fn load(&mut self, state: &PokeyState) {
        *self.change() = *state;
    }

    fn advance(&mut self, from: u64, n: u64, trail: &mut Trail) {
        M::run(self.change(), from, n, trail);
    }

    fn read(&self, reg: u8) -> u8 {
        read_register(self.get(), reg)
    }

    fn write(&mut self, reg: u8, value: u8) {
        write_register(self.change(), reg, value);
    }

    fn set_pot(&mut self, which: u8, value: u8) {
        self.change().targets[which as usize] = value;
    }

    fn quiet(&self) -> Option<u64> {
        quiet_clocks(self.get())
    }

    fn state(&self) -> PokeyState {
        *self.get()
    }
}
