//! Instructions in whose clocks no event is due.
ghost use Rattle.std.specs.Prelude.{◌≡◌, ◌+◌, ◌-◌, ◌≤◌, ◌<◌, false, min, None};
ghost use Rattle.board_base.specs.declared.board.TheConstants.{CLOCK_LIMIT};
ghost use Rattle.board_base.specs.declared.divider.Pending.TheVariants.{Nothing};
ghost use Rattle.board_base.specs.declared.divider.TheConstants.{DIVIDER_PERIOD};
ghost use Rattle.cpu_core.specs.Sequences.{Runs};
ghost use Rattle.cpu_core.specs.Places.{Fetches};
ghost use Rattle.cpu_core.specs.Registers.{registers_of};
ghost use Rattle.catchup_engine.specs.Bus.{Accepts, Looked};
ghost use Rattle.catchup_engine.specs.Horizon.{IsHorizon, KeepsLines, is_before};
ghost use Rattle.lockstep_board.specs.Peripherals.{devices_ticked};
ghost use Rattle.catchup_engine.specs.Quiet.{IsCounted, passed};
ghost use Rattle.catchup_engine.specs.Runs.{CanTakeTurns, GoesOn, TurnsOn, over_bus};
ghost use Rattle.catchup_engine.specs.StopConditions.{asks_generator, stops_at};
ghost use Rattle.tape_ports.specs.Tape.{TapeValue};

use crate::bus::{BoardBus, PROGRAM_START};
use crate::devices::Units;
use crate::stop_conditions::{Breaks, is_stop};
use board_base::{CLOCK_END, RAM_LEN, Sequence};
use board_map::IN0;
use cpu_alu::Flags;
use cpu_core::{Bus, Cpu, Fetched};
use std::marker::PhantomData;
use tape_ports::Tape;

/// What is known of the boundaries up to a clock: no run ends at them, no event is due in the
/// clocks of a sequence that begins there, and no reset is pending.
#[derive(Clone, Copy)]
pub(crate) struct Horizon {
    /// A boundary before this clock is one of them.
    pub until: u64,
    /// Whether the interrupt line is deasserted at them all.
    pub irq_idle: bool,
}

/// The boundaries from one on whose fetch reads an opcode. It is called once between two events.
#[inline(never)]
#[tactic(auto, using(crate::proofs::HorizonLaws::horizon))]
pub(crate) fn horizon_from<S: Units>(bus: &BoardBus<S>, limit: u64) -> Horizon
    requires no_event { bus.now.peripherals.clock < bus.now.event_at }
    requires pending { (devices_ticked bus.now.peripherals).divider.pending ≡ Nothing }
    ensures horizon { IsHorizon limit result bus.now }
    ensures until { result.until ≡ min limit (bus.now.event_at - 6) }
{
    Horizon {
        until: limit.min(bus.quiet_until()),
        irq_idle: bus.irq_idle(),
    }
}

/// The bus in clocks in which no entry of the tape is due and the divider doesn't wrap. They are
/// counted here, and the board gets them where a device is reached, and at the end.
///
/// It is a type of its own for each user, which is a kind of breaks or a tracer. So each loop has
/// the only call of the processor on its bus, and LLVM puts the processor into the loop.
pub(crate) struct QuietBus<'a, S: Units, U> {
    pub(crate) bus: &'a mut BoardBus<S>,
    pub(crate) elapsed: u64,
    pub(crate) user: PhantomData<U>,
}

/// A loop, by its kind of breaks or its tracer, and by whether it asks for the interrupt line.
pub(crate) struct Loop<U, const WIRED: bool>(PhantomData<U>);

impl<'a, S: Units, U> QuietBus<'a, S, U> {
    /// A bus with no clock counted yet.
    #[inline(always)]
    pub(crate) fn new(bus: &'a mut BoardBus<S>) -> QuietBus<'a, S, U>
        ensures same_reference { result.bus.ghost_name ≡ bus.entry.ghost_name }
        ensures bus { result.bus.now ≡ bus.old }
        ensures none { result.elapsed ≡ 0 }
    {
        QuietBus {
            bus,
            elapsed: 0,
            user: PhantomData,
        }
    }

    /// Moves the board on by the clocks counted.
    #[inline(always)]
    pub(crate) fn flush(&mut self)
        requires no_event { self.old.bus.now.peripherals.clock + self.old.elapsed ≤ self.old.bus.now.event_at }
        requires clock { self.old.bus.now.peripherals.clock + self.old.elapsed ≤ CLOCK_END }
        requires room { self.old.bus.now.peripherals.clock + self.old.elapsed ≤ self.old.bus.now.until }
        requires between { self.old.bus.now.clock_open ≡ false }
        ensures same_reference { self.new.bus.ghost_name ≡ self.old.bus.ghost_name }
        ensures flushed { self.new.bus.now ≡ passed self.old.elapsed self.old.bus.now }
        ensures lines { KeepsLines self.old.bus.now self.new.bus.now }
        ensures none { self.new.elapsed ≡ 0 }
    {
        self.bus.pass(self.elapsed);
        self.elapsed = 0;
    }

    /// Executes the instruction at `pc` over it.
    #[inline(always)]
    pub(crate) fn instruction(&mut self, cpu: &mut Cpu, tape: &Tape) -> Fetched
        requires running { cpu.old.jam ≡ None }
        requires boundary { cpu.old.mid ≡ None }
        requires accepts { ⟦<QuietBus<'a, S, U> as Bus>⟧.accepts tape.now self.old }
        requires room { 7 ≤ ⟦<QuietBus<'a, S, U> as Bus>⟧.room self.old }
        ensures runs { Runs (⟦<QuietBus<'a, S, U> as Bus>⟧.step tape.now) (registers_of cpu.old) Sequence.Opcode self.old self.new cpu.new }
        ensures fetches { Fetches (⟦<QuietBus<'a, S, U> as Bus>⟧.step tape.now) cpu.old self.old self.new cpu.new }
        ensures boundary { cpu.new.mid ≡ None }
        ensures accepts { ⟦<QuietBus<'a, S, U> as Bus>⟧.accepts tape.now self.new }
        ensures room { ⟦<QuietBus<'a, S, U> as Bus>⟧.room self.old ≤ ⟦<QuietBus<'a, S, U> as Bus>⟧.room self.new + 7 }
    {
        cpu.instruction_by_jump(self, tape)
    }

    /// Whether a run ends at this boundary, where its limit hasn't come. Where the generator is
    /// asked, the board gets the clocks counted first.
    #[inline(always)]
    fn is_stop<B: Breaks>(&mut self, cpu: &Cpu, breaks: &B) -> bool
        requires counted { self.old.bus.now.peripherals.clock + self.old.elapsed ≤ self.old.bus.now.event_at }
        requires clock { self.old.bus.now.peripherals.clock + self.old.elapsed ≤ CLOCK_END }
        requires room { self.old.bus.now.peripherals.clock + self.old.elapsed ≤ self.old.bus.now.until }
        requires between { self.old.bus.now.clock_open ≡ false }
        ensures same_reference { self.new.bus.ghost_name ≡ self.old.bus.ghost_name }
        ensures value { result ≡ stops_at (B.conditions breaks.now) (over_bus cpu.now (passed self.old.elapsed self.old.bus.now)) }
        ensures looked { Looked (asks_generator (B.conditions breaks.now)) (passed self.old.elapsed self.old.bus.now) (passed self.new.elapsed self.new.bus.now) }
        ensures lines { KeepsLines self.old.bus.now self.new.bus.now }
        ensures counted { (tape : TapeValue) → IsCounted tape self.old.elapsed self.old.bus.now → IsCounted tape self.new.elapsed self.new.bus.now }
    {
        if breaks.halted().is_some() {
            self.flush();
        }
        is_stop(cpu, self.bus, breaks)
    }

    /// The clock, with those counted.
    #[inline(always)]
    pub(crate) fn clock(&self) -> u64
        requires no_event { self.now.bus.now.peripherals.clock + self.now.elapsed ≤ self.now.bus.now.event_at }
        ensures { result ≡ self.now.bus.now.peripherals.clock + self.now.elapsed }
    {
        self.bus.clock_after(self.elapsed)
    }

    /// Whether this boundary is before the horizon and its fetch reads an opcode. With `WIRED` it
    /// asks for the interrupt line where the horizon doesn't tell.
    #[inline(always)]
    #[tactic(auto, unfolding(crate::specs::Quiet::later, crate::specs::Quiet::passed))]
    pub(crate) fn is_before<const WIRED: bool>(&self, horizon: &Horizon, cpu: &Cpu) -> bool
        requires no_event { self.now.bus.now.peripherals.clock + self.now.elapsed ≤ self.now.bus.now.event_at }
        requires event { horizon.now.until + 6 ≤ self.now.bus.now.event_at }
        requires last { horizon.now.until ≤ CLOCK_LIMIT }
        ensures value { result ≡ is_before WIRED horizon.now cpu.now (passed self.now.elapsed self.now.bus.now) }
        ensures wrap { self.now.bus.now.peripherals.divider.phase + (self.now.bus.now.event_at - self.now.bus.now.peripherals.clock) < DIVIDER_PERIOD }
    {
        self.bus.clock_after(self.elapsed) < horizon.until
            && cpu.state().jam.is_none()
            && (horizon.irq_idle
                || Flags::from_byte(cpu.state().p).interrupt
                || WIRED && !self.bus.line_after(self.elapsed))
    }
}

impl<'a, S: Units, U> Bus for QuietBus<'a, S, U> {
    ghost use Rattle.std.specs.Prelude.{◌≡◌, ◌-◌, false};
    ghost use Rattle.catchup_engine.specs.Bus.{Accepts, BusStep, room_of};
    ghost use Rattle.catchup_engine.specs.Horizon.{KeepsLines};
    ghost use Rattle.catchup_engine.specs.Quiet.{passed, IsCounted, quiet_room};

    type Feed = Tape;

    ghost step = { λ tape x s t. (t.bus.ghost_name ≡ s.bus.ghost_name) × KeepsLines s.bus.now t.bus.now × BusStep tape.entries x (passed s.elapsed s.bus.now) (passed t.elapsed t.bus.now) };

    ghost accepts = { λ tape s. IsCounted tape s.elapsed s.bus.now };

    ghost room = { λ s. quiet_room s.elapsed s.bus.now };

    #[inline(always)]
    fn read(&mut self, _tape: &Tape, addr: u16) -> u8 {
        self.elapsed += 1;
        if addr >= PROGRAM_START {
            self.bus.program_at(addr)
        } else if addr < RAM_LEN as u16 {
            self.bus.ram_byte(addr)
        } else if addr == IN0 {
            self.flush();
            self.bus.byte_of_in0(addr)
        } else {
            self.flush();
            self.bus.byte(addr)
        }
    }

    #[inline(always)]
    fn write(&mut self, _tape: &Tape, addr: u16, value: u8) {
        self.elapsed += 1;
        if addr < RAM_LEN as u16 {
            self.bus.put_ram(addr, value);
        } else {
            self.flush();
            self.bus.put(addr, value);
        }
    }
}

/// Does the instruction at a boundary, and those at the boundaries after it before the horizon, up
/// to the first at which the run stops. The board gets their clocks where a device is reached, and
/// at the end.
#[inline(always)]
pub(crate) fn run_to_horizon<S: Units, B: Breaks, const WIRED: bool>(
    mut cpu: Cpu,
    bus: &mut BoardBus<S>,
    tape: &Tape,
    limit: u64,
    breaks: &B,
) -> Cpu
    requires ready { CanTakeTurns limit tape.now cpu bus.old }
    requires goes_on { GoesOn limit (B.conditions breaks.now) cpu bus.old }
    ensures on { TurnsOn tape.now.entries limit (B.conditions breaks.now) cpu bus.old bus.new result }
    ensures later { bus.old.peripherals.clock < bus.new.peripherals.clock }
    ensures accepts { Accepts tape.now bus.new }
{
    let horizon = horizon_from(bus, limit);
    let mut quiet = QuietBus::<S, Loop<B, WIRED>>::new(bus);
    let mut goes_on = true;
    while goes_on {
        let _fetched = quiet.instruction(&mut cpu, tape);
        goes_on = quiet.is_before::<WIRED>(&horizon, &cpu) && !quiet.is_stop(&cpu, breaks);
    }
    quiet.flush();
    let QuietBus {
        bus: back,
        elapsed: _,
        user: _,
    } = quiet;
    // opens the model
    let _same = &*back;
    cpu
}
