//! The clocks of the board: their ticks, and how far it is to the next event.
ghost use Rattle.std.specs.Prelude.{◌≡◌, ◌+◌, ◌-◌, ◌*◌, ◌^◌, ◌≤◌, ◌<◌, true, false, min, nat_le};
ghost use Rattle.board_base.specs.Ticks.{times};
ghost use Rattle.irq_watchdog.specs.Tick.{divider_tick};
ghost use Rattle.catchup_devices.specs.Lags.{lags};
ghost use Rattle.lockstep_board.specs.Budget.{ticks_price, wraps};
ghost use Rattle.catchup_engine.specs.Horizon.{LeavesLines};
ghost use Rattle.catchup_engine.specs.Quiet.{passed};
ghost use Rattle.catchup_engine.specs.Bus.{Accepts, Does, begin_price, done_clock, in_clock};
ghost use Rattle.lockstep_board.specs.Peripherals.{devices_ticked, ticked};

use crate::bus::{BoardBus, MAX_SEQUENCE_CLOCKS, TRAIL_ROOM};
use crate::devices::Units;
use avg_device::VectorUnit;
use board_base::{CLOCK_END, DIVIDER_PERIOD};
use catchup_devices::CatchUp;
use earom_cells::CellUnit;
use irq_watchdog::DividerUnit;
use pokey_chip::SoundUnit;
use tape_ports::Tape;

/// Moves a divider to a clock: one call where it lags, and none where it doesn't.
#[tactic(auto, using(board_base::proofs::TickLaws::level))]
pub(super) fn catch_up_divider<D: DividerUnit>(divider: &mut CatchUp<D>, clock: u64)
    requires before { divider.old.done ≤ clock }
    ensures done { divider.new.done ≡ clock }
    ensures state { D.device divider.new.unit ≡ times divider_tick (clock - divider.old.done) (D.device divider.old.unit) }
    ensures calls { D.calls divider.new.unit ≤ D.calls divider.old.unit + lags divider.old.done clock }
    ensures more { min (D.calls divider.old.unit) (2 ^ 64 - 1) ≤ D.calls divider.new.unit }
{
    divider.catch_up(clock, |unit, clocks| unit.advance(clocks));
}

impl<S: Units> BoardBus<S> {
    /// The clocks done.
    #[tactic(auto, using(crate::proofs::DividerLaws::lines, crate::proofs::DividerLaws::next_lines), unfolding(lockstep_board::specs::Peripherals::devices_ticked))]
    pub fn clock(&self) -> u64
        ensures value { result ≡ self.now.peripherals.clock }
        ensures last { result ≤ CLOCK_END }
        ensures rooms { (TRAIL_ROOM ≤ self.now.rooms.vector) × (TRAIL_ROOM ≤ self.now.rooms.sound1) × (TRAIL_ROOM ≤ self.now.rooms.sound2) × (TRAIL_ROOM ≤ self.now.rooms.board) }
        ensures until { result ≤ self.now.until }
        ensures ticks { result < self.now.event_at → LeavesLines self.now.peripherals }
    {
        self.clock
    }

    /// The clock so many clocks later, in which the divider doesn't wrap.
    #[inline(always)]
    #[tactic(auto, using(crate::proofs::DividerLaws::lines))]
    pub fn clock_after(&self, clocks: u64) -> u64
        requires no_event { self.now.peripherals.clock + clocks ≤ self.now.event_at }
        ensures value { result ≡ self.now.peripherals.clock + clocks }
        ensures wrap { self.now.peripherals.divider.phase + (self.now.event_at - self.now.peripherals.clock) < DIVIDER_PERIOD }
    {
        self.clock + clocks
    }

    /// The clock of the divider's next wrap, when it is done.
    #[tactic(auto, using(crate::proofs::DividerLaws::lines))]
    pub fn next_wrap(&self) -> u64
        ensures exact { result ≡ self.now.peripherals.clock + (DIVIDER_PERIOD - self.now.peripherals.divider.phase) }
        ensures ahead { self.now.peripherals.clock < result }
    {
        self.wrap_at
    }

    /// Whether no event is due in the clocks of a whole sequence: no entry is due, and the
    /// divider doesn't wrap.
    #[inline(always)]
    pub fn is_quiet(&self) -> bool
        ensures { result ≡ nat_le (self.now.peripherals.clock + MAX_SEQUENCE_CLOCKS) self.now.event_at }
    {
        self.clock + u64::from(MAX_SEQUENCE_CLOCKS) <= self.event_at
    }

    /// The clock before which a whole sequence may begin in which no event is due.
    #[inline(always)]
    #[tactic(auto, using(crate::proofs::DividerLaws::lines, crate::proofs::DividerLaws::next_lines), unfolding(lockstep_board::specs::Peripherals::devices_ticked))]
    pub fn quiet_until(&self) -> u64
        ensures value { result ≡ self.now.event_at - 6 }
        ensures ticks { self.now.peripherals.clock < self.now.event_at → LeavesLines self.now.peripherals }
    {
        self.event_at
            .saturating_sub(u64::from(MAX_SEQUENCE_CLOCKS) - 1)
    }

    /// The ticks of a clock, which counts as done then. Only a wrap moves a device.
    #[tactic(auto, using(board_base::proofs::TickLaws::next_clock, pokey_chip::proofs::RecordLemmas::lagging, crate::proofs::DividerLaws::lines), unfolding(lockstep_board::specs::Peripherals::devices_ticked))]
    pub(super) fn tick(&mut self)
        requires between { self.old.clock_open ≡ false }
        requires clock { self.old.peripherals.clock < CLOCK_END }
        requires room { self.old.peripherals.clock < self.old.until }
        ensures does { Does self.old self.new (done_clock (devices_ticked self.old.peripherals)) (5 * wraps self.old.peripherals) }
    {
        self.clock += 1;
        if self.clock == self.wrap_at {
            catch_up_divider(&mut self.divider, self.clock);
            self.wrap_at = self.clock + self.divider.unit.quiet();
        }
    }

    /// The ticks of so many clocks in which no event is due: no device moves.
    #[inline(always)]
    #[tactic(auto, using(crate::proofs::QuietLaws::later_devices, crate::proofs::DividerLaws::lines), unfolding(crate::specs::Quiet::later, crate::specs::Quiet::passed))]
    pub fn pass(&mut self, clocks: u64)
        requires no_event { self.old.peripherals.clock + clocks ≤ self.old.event_at }
        requires clock { self.old.peripherals.clock + clocks ≤ CLOCK_END }
        requires room { self.old.peripherals.clock + clocks ≤ self.old.until }
        requires between { self.old.clock_open ≡ false }
        ensures value { self.new ≡ passed clocks self.old }
        ensures irq { self.new.peripherals.divider.irq ≡ self.old.peripherals.divider.irq }
        ensures pending { self.new.peripherals.divider.pending ≡ self.old.peripherals.divider.pending }
    {
        self.clock += clocks;
    }

    /// Begins a clock before its access: its entries are applied, and the devices tick.
    #[tactic(auto, using(crate::proofs::EventLaws::kept))]
    pub fn begin(&mut self, tape: &Tape)
        requires accepts { Accepts tape.now self.old }
        requires between { self.old.clock_open ≡ false }
        requires clock { self.old.peripherals.clock < CLOCK_END }
        requires room { self.old.peripherals.clock < self.old.until }
        ensures value { self.new ≡ record self.old { peripherals = done_clock (ticked tape.now.entries self.old.peripherals); clock_open = true; tape_pos = self.new.tape_pos; event_at = self.new.event_at; lagging = self.new.lagging; until = self.new.until; calls = self.new.calls } }
        ensures accepts { Accepts tape.now self.new }
        ensures until { self.old.until ≤ self.new.until }
        ensures calls { self.new.calls ≤ self.old.calls + ticks_price tape.now.entries self.old.peripherals }
        ensures more { self.old.calls ≤ self.new.calls }
        ensures one { self.new.peripherals.clock ≡ self.old.peripherals.clock + 1 }
        ensures written { self.new.peripherals.written ≡ self.old.peripherals.written }
    {
        self.clock_with_events(tape);
        self.clock_open = true;
        self.event_at = 0;
    }

    /// Begins the clock of an access, unless it is open.
    #[tactic(auto, using(crate::proofs::ClockLaws::clocks), unfolding(crate::specs::Bus::in_clock))]
    pub(super) fn enter(&mut self, tape: &Tape)
        requires accepts { Accepts tape.now self.old }
        requires clock { self.old.peripherals.clock < CLOCK_END }
        requires room { self.old.peripherals.clock < self.old.until }
        ensures value { self.new ≡ record self.old { peripherals = done_clock (in_clock tape.now.entries self.old.clock_open self.old.peripherals); clock_open = false; tape_pos = self.new.tape_pos; event_at = self.new.event_at; lagging = self.new.lagging; until = self.new.until; calls = self.new.calls } }
        ensures accepts { Accepts tape.now self.new }
        ensures until { self.old.until ≤ self.new.until }
        ensures calls { self.new.calls ≤ self.old.calls + begin_price tape.now.entries self.old.clock_open self.old.peripherals }
        ensures more { self.old.calls ≤ self.new.calls }
        ensures clock_done { 1 ≤ self.new.peripherals.clock }
    {
        if self.clock_open {
            self.clock_open = false;
            self.look_ahead(tape);
        } else if self.clock < self.event_at {
            self.pass(1);
        } else {
            self.clock_with_events(tape);
        }
    }
}
