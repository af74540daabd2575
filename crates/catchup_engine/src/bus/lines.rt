//! The lines to the processor: the interrupt, and the pending reset with what its first clock does.
ghost use Rattle.std.specs.Prelude.{◌≡◌, ◌&&◌, not, ◌+◌, ◌-◌, ◌≤◌, ◌<◌, ◌||◌, length, ◌++◌, ◌∷◌, []};
ghost use Rattle.catchup_engine.specs.Bus.{Does, at_clock};
ghost use Rattle.catchup_engine.specs.Quiet.{later};
ghost use Rattle.irq_watchdog.specs.Tick.{reset_taken};
ghost use Rattle.lockstep_board.specs.Peripherals.{devices_ticked, has_request, line_of, reset_started};

use crate::bus::BoardBus;
use crate::devices::Units;
use avg_device::VectorUnit;
use board_base::{CLOCK_END, Pending, Record};
use earom_cells::CellUnit;
use irq_watchdog::DividerUnit;
use pokey_chip::SoundUnit;

impl<S: Units> BoardBus<S> {
    /// The interrupt line.
    #[tactic(auto, using(crate::proofs::DividerLaws::lines), unfolding(lockstep_board::specs::Peripherals::line_of))]
    pub fn line(&self) -> bool
        ensures { result ≡ line_of self.now.peripherals }
    {
        self.divider.unit.irq()
            || self.sound1.asserts_irq(self.clock)
            || self.sound2.asserts_irq(self.clock)
    }

    /// The interrupt line after so many clocks and the ticks of the clock that comes next, where no
    /// event is due in them.
    #[inline(always)]
    #[tactic(auto, using(crate::proofs::QuietLaws::later_lines), unfolding(lockstep_board::specs::Peripherals::line_of, lockstep_board::specs::Peripherals::devices_ticked, crate::specs::Quiet::later))]
    pub fn line_after(&self, clocks: u64) -> bool
        requires no_event { self.now.peripherals.clock + clocks < self.now.event_at }
        requires clock { self.now.peripherals.clock + clocks < CLOCK_END }
        ensures { result ≡ line_of (devices_ticked (later clocks self.now.peripherals)) }
    {
        self.divider.unit.irq() || self.has_request_after(clocks)
    }

    /// Whether a POKEY asserts the interrupt line after so many clocks and the ticks of the next one.
    #[inline(always)]
    #[tactic(auto, using(crate::proofs::QuietLaws::later_lines), unfolding(lockstep_board::specs::Peripherals::devices_ticked, crate::specs::Quiet::later))]
    fn has_request_after(&self, clocks: u64) -> bool
        requires clock { self.now.peripherals.clock + clocks < CLOCK_END }
        ensures { result ≡ (self.now.peripherals.wired && (has_request (devices_ticked (later clocks self.now.peripherals)).sound1 || has_request (devices_ticked (later clocks self.now.peripherals)).sound2)) }
    {
        let clock = self.clock + clocks;
        self.sound1.asserts_irq_next(clock) || self.sound2.asserts_irq_next(clock)
    }

    /// Whether the POKEYs' requests reach the interrupt line.
    #[inline(always)]
    pub fn is_wired(&self) -> bool
        ensures { result ≡ self.now.peripherals.wired }
    {
        self.sound1.wired
    }

    /// Whether the interrupt line is deasserted until the next event: no POKEY is wired to it.
    #[inline(always)]
    #[tactic(auto, using(crate::proofs::DividerLaws::lines))]
    pub fn irq_idle(&self) -> bool
        ensures { result ≡ (not self.now.peripherals.wired && not self.now.peripherals.divider.irq) }
    {
        !self.sound1.wired && !self.divider.unit.irq()
    }

    /// The reset that is pending.
    #[tactic(auto, using(crate::proofs::DividerLaws::lines))]
    pub fn pending(&self) -> Pending
        ensures { result ≡ self.now.peripherals.divider.pending }
    {
        self.divider.unit.pending()
    }

    /// The reset that is pending after the next clock's ticks, where no event is due in it.
    #[inline(always)]
    #[tactic(auto, using(crate::proofs::DividerLaws::next_lines), unfolding(lockstep_board::specs::Peripherals::devices_ticked))]
    pub fn next_pending(&self) -> Pending
        requires no_event { self.now.peripherals.clock < self.now.event_at }
        ensures { result ≡ (devices_ticked self.now.peripherals).divider.pending }
    {
        self.divider.unit.pending()
    }

    /// Begins the pending reset, in the clock that counts as done: one by the watchdog halts the
    /// generator, clears the output latch and is recorded.
    #[tactic(auto, using(board_base::proofs::TickLaws::level, crate::proofs::DividerLaws::lines), unfolding(lockstep_board::specs::Peripherals::reset_started))]
    pub fn begin_reset(&mut self)
        requires room { length self.old.peripherals.written < self.old.rooms.board }
        requires clock_done { 1 ≤ self.old.peripherals.clock }
        ensures does { Does self.old self.new (at_clock self.old.peripherals.clock (reset_started (at_clock (self.old.peripherals.clock - 1) self.old.peripherals))) 4 }
        ensures few { length self.new.peripherals.written ≤ length self.old.peripherals.written + 1 }
        ensures clock { self.new.peripherals.clock ≡ self.old.peripherals.clock }
    {
        let pending = self.take_reset();
        if let Pending::Watchdog = pending {
            self.sync_vector();
            self.reset_vector();
            self.record_reset();
        }
    }

    /// Takes the divider's pending reset, and returns which it is.
    #[tactic(auto, using(crate::proofs::DividerLaws::latches))]
    fn take_reset(&mut self) -> Pending
        ensures pending { result ≡ self.old.peripherals.divider.pending }
        ensures does { Does self.old self.new (record self.old.peripherals { divider = reset_taken self.old.peripherals.divider }) 2 }
    {
        let pending = self.divider.unit.pending();
        self.divider.unit.taken();
        pending
    }

    /// Clears the output latch, and records the watchdog's reset.
    fn record_reset(&mut self)
        requires room { length self.old.peripherals.written < self.old.rooms.board }
        requires clock_done { 1 ≤ self.old.peripherals.clock }
        ensures { self.new ≡ record self.old {
          peripherals = record self.old.peripherals {
            ports = record self.old.peripherals.ports { out = 0 };
            written = self.old.peripherals.written ++ Record.WatchdogReset (self.old.peripherals.clock - 1) ∷ [];
          };
        } }
    {
        let clock = self.clock - 1;
        self.ports.out = 0;
        self.written.push(Record::WatchdogReset { clock });
    }
}
