ghost use Rattle.std.specs.Prelude.{◌≡◌, ◌<◌};
ghost use Rattle.board_base.specs.Counts.{Counted};
ghost use Rattle.board_base.specs.Ticks.{times};
ghost use Rattle.earom_cells.specs.Tick.{earom_tick, latched, controlled};

use board_base::{Clocked, EaromState};

/// An EAROM of 64 cells (ER2055 data sheet; its modes are this project's own choice).
pub trait CellUnit: Clocked {
    ghost use Rattle.board_base.specs.Earom.{EaromValue};

    /// The EAROM as it stands.
    ghost device: { Self → EaromValue };

    /// Takes on a state.
    fn load(&mut self, state: &EaromState)
        ensures state { device self.new ≡ state.now }
        ensures counted { Counted (Self.calls self.old) (Self.calls self.new) };

    /// Does `n` clocks, for each `n` there is.
    fn advance(&mut self, n: u64)
        ensures state { device self.new ≡ times earom_tick n (device self.old) }
        ensures counted { Counted (Self.calls self.old) (Self.calls self.new) };

    /// Writes the address and data latches.
    fn latch(&mut self, addr: u8, value: u8)
        requires { addr < 64 }
        ensures state { device self.new ≡ latched addr value (device self.old) }
        ensures counted { Counted (Self.calls self.old) (Self.calls self.new) };

    /// Writes the control bits, of which there are four.
    fn control(&mut self, value: u8)
        ensures state { device self.new ≡ controlled value (device self.old) }
        ensures counted { Counted (Self.calls self.old) (Self.calls self.new) };

    /// The output latch.
    fn output(&self) -> u8
        ensures { result ≡ (device self.now).out };

    /// The state as it stands.
    fn state(&self) -> EaromState
        ensures { result ≡ device self.now };
}
