ghost use Rattle.std.specs.Prelude.{◌≡◌, ◌-◌, ◌<◌};
ghost use Rattle.board_base.specs.Counts.{Counted};
ghost use Rattle.board_base.specs.Ticks.{times};
ghost use Rattle.irq_watchdog.specs.Tick.{divider_tick, acknowledged, watchdog_cleared, reset_taken, line_3k};

use board_base::{Clocked, DIVIDER_PERIOD, DividerState, Pending};

/// An interrupt divider with its watchdog. This project's own choice.
pub trait DividerUnit: Clocked {
    ghost use Rattle.board_base.specs.Divider.{DividerValue};

    /// The divider as it stands.
    ghost device: { Self → DividerValue };

    /// Takes on a state.
    fn load(&mut self, state: &DividerState)
        ensures state { device self.new ≡ state.now }
        ensures counted { Counted (Self.calls self.old) (Self.calls self.new) };

    /// Does `n` clocks, for each `n` there is.
    fn advance(&mut self, n: u64)
        ensures state { device self.new ≡ times divider_tick n (device self.old) }
        ensures counted { Counted (Self.calls self.old) (Self.calls self.new) };

    /// Whether the interrupt latch is set.
    fn irq(&self) -> bool
        ensures { result ≡ (device self.now).irq };

    /// The reset that waits for the next opcode fetch.
    fn pending(&self) -> Pending
        ensures { result ≡ (device self.now).pending };

    /// The clocks up to and with the next wrap.
    fn quiet(&self) -> u64
        ensures exact { result ≡ DIVIDER_PERIOD - (device self.now).phase }
        ensures ahead { 0 < result };

    /// The 3 kHz line.
    fn bit3k(&self) -> bool
        ensures { result ≡ line_3k (device self.now) };

    /// Lets go of the interrupt.
    fn acknowledge(&mut self)
        ensures state { device self.new ≡ acknowledged (device self.old) }
        ensures counted { Counted (Self.calls self.old) (Self.calls self.new) };

    /// Begins the watchdog's count anew.
    fn clear(&mut self)
        ensures state { device self.new ≡ watchdog_cleared (device self.old) }
        ensures counted { Counted (Self.calls self.old) (Self.calls self.new) };

    /// States that the pending reset is being taken.
    fn taken(&mut self)
        ensures state { device self.new ≡ reset_taken (device self.old) }
        ensures counted { Counted (Self.calls self.old) (Self.calls self.new) };

    /// The state as it stands.
    fn state(&self) -> DividerState
        ensures { result ≡ device self.now };
}
