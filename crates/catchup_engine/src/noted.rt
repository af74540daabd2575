//! Instructions in whose clocks no event is due, which are passed to a tracer.
ghost use Rattle.std.specs.Prelude.{◌≡◌, ◌+◌, ◌-◌, ◌*◌, ◌^◌, ◌<◌, ◌≤◌, ◌&&◌, ℕ, [], true, false, length, None, IfSome};
ghost use Rattle.std.specs.Int.{from_bool};
ghost use Rattle.board_base.specs.declared.board.TheConstants.{CLOCK_LIMIT};
ghost use Rattle.board_base.specs.declared.divider.TheConstants.{DIVIDER_PERIOD};
ghost use Rattle.board_map.specs.Map.{IsWithin, row_of};
ghost use Rattle.cpu_core.specs.BusCycles.{read_of, write_of};
ghost use Rattle.cpu_core.specs.Registers.{registers_of};
ghost use Rattle.cpu_core.specs.Sequences.{Runs};
ghost use Rattle.cpu_core.specs.Places.{Fetches, fetched_of};
ghost use Rattle.lockstep_board.specs.Budget.{reaches_device};
ghost use Rattle.lockstep_board.specs.Peripherals.{Peripherals, byte_put, byte_read};
ghost use Rattle.catchup_engine.specs.StopConditions.{no_conditions};
ghost use Rattle.catchup_engine.specs.Bus.{Accepts, Does, at_clock, is_private};
ghost use Rattle.catchup_engine.specs.Lags.{lagging_at};
ghost use Rattle.catchup_engine.specs.Horizon.{is_before};
ghost use Rattle.catchup_engine.specs.Quiet.{passed};
ghost use Rattle.catchup_engine.specs.Notes.{CanNote, IsNoted, with_reached};
ghost use Rattle.catchup_engine.specs.Runs.{over_bus, CanTakeTurns, GoesOn, TurnsOn};
ghost use Rattle.catchup_engine.specs.Together.{NotedRun};
ghost use Rattle.catchup_engine.specs.Trace.{access_at};
ghost use Rattle.catchup_engine.specs.Traced.{NotedTurns};

use crate::bus::{BoardBus, PROGRAM_START, is_private};
use crate::devices::Units;
use crate::note::{Reached, TurnNote};
use crate::quiet::{Horizon, Loop, QuietBus, horizon_from};
use crate::tracer::Tracer;
use board_base::{RAM_LEN, Sequence};
use board_map::{IN0, Row, WATCHDOG_START, Writes, row};
use cpu_core::{Bus, Cpu, Fetched};
use lockstep_board::{devices_read, devices_written};
use tape_ports::Tape;

/// A `QuietBus` that notes what its accesses reach.
struct NotedBus<'a, S: Units, U> {
    quiet: QuietBus<'a, S, U>,
    reached: &'a mut Reached,
}

/// Notes a read, and returns its byte, in the clock that counts as done.
#[inline(always)]
#[tactic(auto, unfolding(lockstep_board::specs::Budget::reaches_device))]
fn byte_noted<S: Units>(bus: &mut BoardBus<S>, reached: &mut Reached, addr: u16, row: Row) -> u8
    requires row { row ≡ row_of addr }
    requires inside { IsWithin row }
    requires accesses { reached.old.accesses < 2 ^ 63 }
    requires starts { length reached.old.starts < 7 }
    ensures byte { result ≡ byte_read addr (at_clock (bus.old.peripherals.clock - 1) bus.old.peripherals) }
    ensures does { Does bus.old bus.new bus.old.peripherals (2 * from_bool (reaches_device (read_of addr result))) }
    ensures current { lagging_at (row_of addr).reads bus.new.lagging ≡ 0 }
    ensures reached { (clock : ℕ) → reached.new ≡ with_reached reached.old (access_at clock (read_of addr result)) }
{
    reached.add(!devices_read(row.reads).is_empty(), false, 0);
    bus.byte_by(addr, row)
}

/// Moves the board on by the clocks counted and one more, reads a byte in that one, by the
/// address's row of the map, and notes the read.
#[inline(always)]
fn read_by<S: Units>(
    bus: &mut BoardBus<S>,
    elapsed: u64,
    reached: &mut Reached,
    _tape: &Tape,
    addr: u16,
    row: Row,
) -> u8
    requires row { row ≡ row_of addr }
    requires inside { IsWithin row }
    requires can { CanNote _tape.now elapsed bus.old reached.old }
    ensures { IsNoted _tape.now elapsed (read_of addr result) bus.old bus.new reached.old reached.new }
{
    bus.pass(elapsed + 1);
    byte_noted(bus, reached, addr, row)
}

/// Does what `read_noted` does, with a look at the map.
#[inline(never)]
fn read_elsewhere<S: Units>(
    bus: &mut BoardBus<S>,
    elapsed: u64,
    reached: &mut Reached,
    tape: &Tape,
    addr: u16,
) -> u8
    requires { CanNote tape.now elapsed bus.old reached.old }
    ensures { IsNoted tape.now elapsed (read_of addr result) bus.old bus.new reached.old reached.new }
{
    read_by(bus, elapsed, reached, tape, addr, row(addr))
}

/// Moves the board on by the clocks counted and one more, reads a byte in that one, and notes the
/// read.
///
/// LLVM never puts it into the processor: with it the processor would be too long for the loop. A
/// polling loop reads IN0, for which it has the row of the map.
#[inline(never)]
fn read_noted<S: Units>(
    bus: &mut BoardBus<S>,
    elapsed: u64,
    reached: &mut Reached,
    tape: &Tape,
    addr: u16,
) -> u8
    requires { CanNote tape.now elapsed bus.old reached.old }
    ensures { IsNoted tape.now elapsed (read_of addr result) bus.old bus.new reached.old reached.new }
{
    if addr == IN0 {
        read_by(bus, elapsed, reached, tape, addr, row(IN0))
    } else {
        read_elsewhere(bus, elapsed, reached, tape, addr)
    }
}

/// Notes a write, and writes its byte, in the clock that counts as done.
#[inline(always)]
#[tactic(auto, unfolding(lockstep_board::specs::Budget::reaches_device))]
fn put_noted<S: Units>(bus: &mut BoardBus<S>, reached: &mut Reached, addr: u16, row: Row, value: u8)
    requires row { row ≡ row_of addr }
    requires inside { IsWithin row }
    requires room { length bus.old.peripherals.written < bus.old.rooms.board }
    requires clock_done { 1 ≤ bus.old.peripherals.clock }
    requires accesses { reached.old.accesses < 2 ^ 63 }
    requires starts { length reached.old.starts < 7 }
    ensures does { Does bus.old bus.new (at_clock bus.old.peripherals.clock (byte_put addr value (at_clock (bus.old.peripherals.clock - 1) bus.old.peripherals))) (2 * from_bool (reaches_device (write_of addr value))) }
    ensures few { length bus.new.peripherals.written ≤ length bus.old.peripherals.written + 1 }
    ensures reached { reached.new ≡ with_reached reached.old (access_at (bus.old.peripherals.clock - 1) (write_of addr value)) }
{
    reached.add(
        !devices_written(row.writes).is_empty(),
        matches!(row.writes, Writes::Go),
        bus.clock() - 1,
    );
    bus.put_by(addr, row, value);
}

/// Moves the board on by the clocks counted and one more, writes a byte in that one, and notes the
/// write.
///
/// LLVM never puts it into the processor, as `read_noted`.
#[inline(never)]
fn write_noted<S: Units>(
    bus: &mut BoardBus<S>,
    elapsed: u64,
    reached: &mut Reached,
    _tape: &Tape,
    addr: u16,
    value: u8,
)
    requires { CanNote _tape.now elapsed bus.old reached.old }
    ensures { IsNoted _tape.now elapsed (write_of addr value) bus.old bus.new reached.old reached.new }
{
    bus.pass(elapsed + 1);
    // a polling loop clears the watchdog: from there on LLVM compares with few rows of the map
    if addr >= WATCHDOG_START {
        put_noted(bus, reached, addr, row(addr), value);
    } else {
        put_noted(bus, reached, addr, row(addr), value);
    }
}

impl<'a, S: Units, U> NotedBus<'a, S, U> {
    /// The opcode at an address of the RAM or of the program ROM, where none but the processor
    /// writes; elsewhere none is given.
    #[inline(always)]
    fn opcode_at(&self, addr: u16) -> Option<u8>
        ensures { (w : Peripherals) → w.ram ≡ self.now.quiet.bus.now.peripherals.ram → w.program ≡ self.now.quiet.bus.now.peripherals.program → IfSome result (λ opcode. opcode ≡ byte_read addr w) }
    {
        if is_private(addr) {
            Some(self.quiet.bus.private_byte(addr))
        } else {
            None
        }
    }

    /// Executes the instruction at `pc` over it.
    #[inline(always)]
    fn instruction(&mut self, cpu: &mut Cpu, tape: &Tape) -> Fetched
        requires running { cpu.old.jam ≡ None }
        requires boundary { cpu.old.mid ≡ None }
        requires accepts { ⟦<NotedBus<'a, S, U> as Bus>⟧.accepts tape.now self.old }
        requires room { 7 ≤ ⟦<NotedBus<'a, S, U> as Bus>⟧.room self.old }
        ensures runs { Runs (⟦<NotedBus<'a, S, U> as Bus>⟧.step tape.now) (registers_of cpu.old) Sequence.Opcode self.old self.new cpu.new }
        ensures fetches { Fetches (⟦<NotedBus<'a, S, U> as Bus>⟧.step tape.now) cpu.old self.old self.new cpu.new }
        ensures boundary { cpu.new.mid ≡ None }
        ensures jammed { result ≡ fetched_of cpu.new.jam }
        ensures accepts { ⟦<NotedBus<'a, S, U> as Bus>⟧.accepts tape.now self.new }
        ensures room { ⟦<NotedBus<'a, S, U> as Bus>⟧.room self.old ≤ ⟦<NotedBus<'a, S, U> as Bus>⟧.room self.new + 7 }
    {
        cpu.instruction_by_jump(self, tape)
    }

    /// Whether nothing started the generator, and the fetch at this boundary surely reads an opcode,
    /// which a tracer takes with those before it. With `WIRED` it asks for the interrupt line.
    #[inline(always)]
    fn goes_on<T: Tracer, const WIRED: bool>(&self, horizon: &Horizon, cpu: &Cpu) -> bool
        requires no_event { self.now.quiet.bus.now.peripherals.clock + self.now.quiet.elapsed ≤ self.now.quiet.bus.now.event_at }
        requires event { horizon.now.until + 6 ≤ self.now.quiet.bus.now.event_at }
        requires last { horizon.now.until ≤ CLOCK_LIMIT }
        ensures before { result ≡ true → is_before WIRED horizon.now cpu.now (passed self.now.quiet.elapsed self.now.quiet.bus.now) ≡ true }
        ensures starts { result ≡ true → self.now.reached.now.starts ≡ [] }
        ensures plain { result ≡ true → (w : Peripherals) → w.ram ≡ self.now.quiet.bus.now.peripherals.ram → w.program ≡ self.now.quiet.bus.now.peripherals.program → T.plain (byte_read cpu.now.pc w) ≡ true }
        ensures wrap { result ≡ true → self.now.quiet.bus.now.peripherals.divider.phase + (self.now.quiet.bus.now.event_at - self.now.quiet.bus.now.peripherals.clock) < DIVIDER_PERIOD }
    {
        self.quiet.is_before::<WIRED>(horizon, cpu)
            && self.reached.has_no_starts()
            && T::is_plain(self.opcode_at(cpu.state().pc))
    }
}

impl<'a, S: Units, U> Bus for NotedBus<'a, S, U> {
    ghost use Rattle.std.specs.Prelude.{◌≡◌, ◌+◌, ◌-◌, ◌≤◌, length, min};
    ghost use Rattle.catchup_engine.specs.Horizon.{KeepsLines};
    ghost use Rattle.catchup_engine.specs.Notes.{NotedStep, noting};
    ghost use Rattle.catchup_engine.specs.Quiet.{passed, IsCounted, quiet_room};

    type Feed = Tape;

    ghost step = { λ tape x s t. (t.quiet.bus.ghost_name ≡ s.quiet.bus.ghost_name) × (t.reached.ghost_name ≡ s.reached.ghost_name) × KeepsLines s.quiet.bus.now t.quiet.bus.now × NotedStep tape.entries x (noting (passed s.quiet.elapsed s.quiet.bus.now) s.reached.now) (noting (passed t.quiet.elapsed t.quiet.bus.now) t.reached.now) };

    ghost accepts = { λ tape s. IsCounted tape s.quiet.elapsed s.quiet.bus.now × (s.reached.now.accesses ≤ s.quiet.bus.now.peripherals.clock + s.quiet.elapsed) × (length s.reached.now.starts ≤ 7) };

    ghost room = { λ s. min (quiet_room s.quiet.elapsed s.quiet.bus.now) (7 - length s.reached.now.starts) };

    #[inline(always)]
    fn read(&mut self, tape: &Tape, addr: u16) -> u8 {
        if addr >= PROGRAM_START {
            self.quiet.elapsed += 1;
            let bus = &mut *self.quiet.bus;
            bus.program_at(addr)
        } else if addr < RAM_LEN as u16 {
            self.quiet.elapsed += 1;
            let bus = &mut *self.quiet.bus;
            bus.ram_byte(addr)
        } else {
            let elapsed = self.quiet.elapsed;
            self.quiet.elapsed = 0;
            read_noted(self.quiet.bus, elapsed, self.reached, tape, addr)
        }
    }

    #[inline(always)]
    fn write(&mut self, tape: &Tape, addr: u16, value: u8) {
        if addr < RAM_LEN as u16 {
            self.quiet.elapsed += 1;
            self.quiet.bus.put_ram(addr, value);
        } else {
            let elapsed = self.quiet.elapsed;
            self.quiet.elapsed = 0;
            write_noted(self.quiet.bus, elapsed, self.reached, tape, addr, value);
        }
    }
}

/// The processor after some turns, and what their accesses reached.
#[derive(Drop)]
struct NotedEnd {
    cpu: Cpu,
    reached: Reached,
}

/// Does the instruction at a boundary, and those at the boundaries after it before the horizon that
/// a tracer takes with it, and notes what they reach. Without `together` it does the first alone.
#[inline(always)]
fn run_noted<S: Units, T: Tracer, const WIRED: bool>(
    mut cpu: Cpu,
    bus: &mut BoardBus<S>,
    tape: &Tape,
    limit: u64,
    together: bool,
) -> NotedEnd
    requires ready { CanTakeTurns limit tape.now cpu bus.old }
    requires goes_on { GoesOn limit no_conditions cpu bus.old }
    requires plain { together ≡ true → (w : Peripherals) → w.ram ≡ bus.old.peripherals.ram → w.program ≡ bus.old.peripherals.program → T.plain (byte_read cpu.pc w) ≡ true }
    ensures on { TurnsOn tape.now.entries limit no_conditions cpu bus.old bus.new result.cpu }
    ensures turns { (w : T) → NotedRun T.next T.has_enough T.after_plain tape.now.entries limit together (over_bus cpu bus.old) (over_bus result.cpu bus.new) result.reached w }
    ensures later { bus.old.peripherals.clock < bus.new.peripherals.clock }
    ensures accepts { Accepts tape.now bus.new }
{
    let horizon = horizon_from(bus, limit);
    let mut noting = Reached::none();
    let lent = QuietBus::<S, Loop<T, WIRED>>::new(bus);
    let mut noted = NotedBus::<S, Loop<T, WIRED>> {
        quiet: lent,
        reached: &mut noting,
    };
    let mut goes_on = true;
    while goes_on {
        let _fetched = noted.instruction(&mut cpu, tape);
        goes_on = together && noted.goes_on::<T, WIRED>(&horizon, &cpu);
    }
    noted.quiet.flush();
    let reached = noted.reached.take();
    let NotedBus { quiet, reached: _ } = noted;
    let QuietBus {
        bus: back,
        elapsed: _,
        user: _,
    } = quiet;
    // opens the model
    let _same = &*back;
    NotedEnd { cpu, reached }
}

/// The processor after some turns, and whether the tracer has enough of them.
#[derive(Drop)]
pub(crate) struct TracedTurns {
    pub cpu: Cpu,
    pub enough: bool,
}

/// Does the instruction at a boundary, whose opcode is in the RAM or the program ROM, and those after
/// it before the horizon that a tracer takes with it, and passes them to the tracer.
pub(crate) fn trace_to_horizon<S: Units, T: Tracer, const WIRED: bool>(
    cpu: Cpu,
    bus: &mut BoardBus<S>,
    tape: &Tape,
    limit: u64,
    tracer: &mut T,
) -> TracedTurns
    requires ready { CanTakeTurns limit tape.now cpu bus.old }
    requires goes_on { GoesOn limit no_conditions cpu bus.old }
    requires opcode { is_private cpu.pc ≡ true }
    ensures on { TurnsOn tape.now.entries limit no_conditions cpu bus.old bus.new result.cpu }
    ensures turns { NotedTurns T.next T.has_enough tape.now.entries limit (over_bus cpu bus.old) (over_bus result.cpu bus.new) tracer.old tracer.new result.enough }
    ensures later { bus.old.peripherals.clock < bus.new.peripherals.clock }
    ensures accepts { Accepts tape.now bus.new }
{
    let opcode = bus.private_byte(cpu.state().pc);
    let together = T::is_plain(Some(opcode));
    let start = bus.clock();
    let NotedEnd { cpu, reached } = run_noted::<S, T, WIRED>(cpu, bus, tape, limit, together);
    let clocks = bus.clock() - start;
    let enough = if together {
        tracer.plain_turns(clocks, reached.accesses(), reached.starts())
    } else {
        let note = TurnNote {
            sequence: Sequence::Opcode,
            opcode,
            clocks: clocks as u8,
            reached: &reached,
        };
        tracer.turn(&note, cpu.state().pc)
    };
    TracedTurns { cpu, enough }
}
