//! The scheduled events: the entries of the tape, which set the ports and the pots of the POKEYs,
//! and the next wrap of the divider.
ghost use Rattle.std.specs.Prelude.{◌≡◌, ◌+◌, ◌*◌, ◌≤◌, ◌<◌, false, length, drop, All};
ghost use Rattle.tape_ports.specs.Due.{due_at};
ghost use Rattle.tape_ports.specs.Ports.{IsPort};
ghost use Rattle.tape_ports.specs.Tape.{IsTape};
ghost use Rattle.lockstep_board.specs.Budget.{ticks_price};
ghost use Rattle.catchup_engine.specs.Events.{deadlines_of, next_event_of};
ghost use Rattle.catchup_engine.specs.Bus.{Accepts, ComesNext, Does, IsTapePlace, done_clock};
ghost use Rattle.lockstep_board.specs.Peripherals.{applied, port_set, ticked};

use crate::bus::BoardBus;
use crate::devices::Units;
use avg_device::VectorUnit;
use board_base::CLOCK_END;
use earom_cells::CellUnit;
use event_queue::Deadlines;
use irq_watchdog::DividerUnit;
use pokey_chip::SoundUnit;
use tape_ports::{Port, Tape, TapeEntry};

impl<S: Units> BoardBus<S> {
    /// Sets the port of an entry of the tape, or the target of its pot.
    #[tactic(auto, using(board_base::proofs::TickLaws::level, crate::proofs::SettledLaws::settled))]
    fn set_port(&mut self, entry: TapeEntry)
        requires port { IsPort entry.port }
        ensures does { Does self.old self.new (port_set entry.port entry.value self.old.peripherals) 2 }
    {
        let value = entry.value;
        match entry.port {
            Port::In0 => self.ports.in0 = value % 64,
            Port::In3 => self.ports.in3 = value,
            Port::In4 => self.ports.in4 = value,
            Port::Pot1(which) => {
                self.sync_sound1();
                self.sound1.set_pot(which, value);
            }
            Port::Pot2(which) => {
                self.sync_sound2();
                self.sound2.set_pot(which, value);
            }
        }
    }

    /// Applies entries of the tape, in their order.
    fn apply(&mut self, entries: &[TapeEntry])
        requires ports { All (λ entry. IsPort entry.port) entries.now }
        ensures does { Does self.old self.new (applied entries.now self.old.peripherals) (5 * length entries.now) }
    {
        for entry in entries {
            self.set_port(*entry);
        }
    }

    /// Applies the entries of the present clock.
    fn apply_due(&mut self, tape: &Tape)
        requires accepts { Accepts tape.now self.old }
        ensures value { self.new ≡ record self.old { peripherals = applied (due_at self.old.peripherals.clock tape.now.entries) self.old.peripherals; tape_pos = self.new.tape_pos; lagging = self.new.lagging; until = self.new.until; calls = self.new.calls } }
        ensures tape_pos { IsTapePlace tape.now (self.old.peripherals.clock + 1) self.new.tape_pos }
        ensures until { self.old.until ≤ self.new.until }
        ensures calls { self.new.calls ≤ self.old.calls + 5 * length (due_at self.old.peripherals.clock tape.now.entries) }
        ensures more { self.old.calls ≤ self.new.calls }
    {
        let after = tape.first_from(self.clock + 1);
        let due = due_entries(tape, self.tape_pos, after, self.clock);
        self.apply(due);
        self.tape_pos = after;
    }

    /// Does a clock's entries and ticks, whether an event is due in it or not.
    #[tactic(auto, using(crate::proofs::EventLaws::events), unfolding(lockstep_board::specs::Peripherals::ticked, lockstep_board::specs::Budget::ticks_price))]
    pub(super) fn clock_with_events(&mut self, tape: &Tape)
        requires accepts { Accepts tape.now self.old }
        requires between { self.old.clock_open ≡ false }
        requires clock { self.old.peripherals.clock < CLOCK_END }
        requires room { self.old.peripherals.clock < self.old.until }
        ensures value { self.new ≡ record self.old { peripherals = done_clock (ticked tape.now.entries self.old.peripherals); tape_pos = self.new.tape_pos; event_at = self.new.event_at; lagging = self.new.lagging; until = self.new.until; calls = self.new.calls } }
        ensures accepts { Accepts tape.now self.new }
        ensures until { self.old.until ≤ self.new.until }
        ensures calls { self.new.calls ≤ self.old.calls + ticks_price tape.now.entries self.old.peripherals }
        ensures more { self.old.calls ≤ self.new.calls }
    {
        self.apply_due(tape);
        self.tick();
        self.look_ahead(tape);
    }

    /// Looks for the next event, where the entries before `tape_pos` are those of the clocks done.
    pub(super) fn look_ahead(&mut self, tape: &Tape)
        requires between { self.old.clock_open ≡ false }
        requires place { IsTapePlace tape.now self.old.peripherals.clock self.old.tape_pos }
        ensures value { self.new ≡ record self.old { event_at = self.new.event_at } }
        ensures accepts { Accepts tape.now self.new }
    {
        // opens the tape
        let _entries = tape.entries();
        self.event_at = next_event(tape, self.tape_pos, self.wrap_at);
    }

    /// Looks at a tape before a run: which entries are past, and when the next event is due.
    pub fn look_at(&mut self, tape: &Tape)
        requires between { self.old.clock_open ≡ false }
        ensures value { self.new ≡ record self.old { tape_pos = self.new.tape_pos; event_at = self.new.event_at } }
        ensures accepts { Accepts tape.now self.new }
    {
        self.tape_pos = tape.first_from(self.clock);
        self.look_ahead(tape);
    }
}

/// The entries due at a clock: those from its place up to the place of the next clock.
#[tactic(auto, using(crate::proofs::TapeLaws::due_entries))]
fn due_entries(tape: &Tape, tape_pos: usize, after: usize, clock: u64) -> &[TapeEntry]
    requires tape_pos { IsTapePlace tape.now clock tape_pos }
    requires after { IsTapePlace tape.now (clock + 1) after }
    ensures due { result.now ≡ due_at clock tape.now.entries }
    ensures ports { All (λ entry. IsPort entry.port) result.now }
{
    let entries = tape.entries();
    &entries[tape_pos..after]
}

/// The names of the deadlines: the divider's next wrap, and the tape's next entry.
const WRAP: u8 = 0;

const ENTRY: u8 = 1;

/// The deadlines of a wrap and of an entry, where there is one.
fn deadlines_of(wrap: u64, entry: Option<u64>) -> Deadlines
    ensures { result ≡ deadlines_of wrap entry }
{
    let mut deadlines = Deadlines::new();
    deadlines.set(WRAP, wrap);
    if let Some(at) = entry {
        deadlines.set(ENTRY, at);
    }
    deadlines
}

/// The sooner of a wrap and of an entry, where there is one.
fn least_event(wrap: u64, entry: Option<u64>) -> u64
    ensures { result ≡ next_event_of wrap entry }
{
    let deadlines = deadlines_of(wrap, entry);
    match deadlines.least() {
        Some((_, at)) => at,
        None => wrap,
    }
}

/// The clock of the entry at a place, where there is one.
fn entry_at(tape: &Tape, tape_pos: usize) -> Option<u64>
    ensures { IsTape tape.now → ComesNext tape.now tape_pos result }
{
    let entries = tape.entries();
    if tape_pos < entries.len() {
        Some(entries[tape_pos].clock)
    } else {
        None
    }
}

/// The clock before which no entry is due and the divider doesn't wrap, from an entry's place and
/// the clock at which the wrap is done.
#[tactic(auto, using(crate::proofs::TapeLaws::comes))]
fn next_event(tape: &Tape, tape_pos: usize, wrap_at: u64) -> u64
    requires { 0 < wrap_at }
    ensures wrap { result < wrap_at }
    ensures entries { IsTape tape.now → All (λ entry. result ≤ entry.clock) (drop tape_pos tape.now.entries) }
{
    least_event(wrap_at - 1, entry_at(tape, tape_pos))
}
