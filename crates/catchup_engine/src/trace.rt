//! The accesses of a sequence.
ghost use Rattle.std.specs.Prelude.{◌≡◌, ◌≢◌, ◌+◌, ◌-◌, ◌<◌, ◌≤◌, ℕ, [], true, None, IfSome, IsSome};
ghost use Rattle.cpu_core.specs.Places.{given_by, Advances};
ghost use Rattle.cpu_core.specs.Registers.{registers_of};
ghost use Rattle.cpu_core.specs.Sequences.{start_of, Runs};
ghost use Rattle.catchup_engine.specs.Bus.{Accepts, room_of};
ghost use Rattle.catchup_engine.specs.Runs.{over_bus, BoundaryRun, IsInRange};
ghost use Rattle.catchup_engine.specs.Trace.{TracedReset, TracedStep, no_trace, step_trace, trace_of, traced};
ghost use Rattle.catchup_engine.specs.Turn.{CanTurn, TurnedBus};

use crate::bus::{BoardBus, MAX_SEQUENCE_CLOCKS};
use crate::devices::Units;
use crate::turn::{due, perform};
use board_base::{CLOCK_LIMIT, Sequence};
use cpu_core::{Bus, Cpu};
use std::marker::Model;
use tape_ports::Tape;

/// An access of the processor: its clock, its address, and the byte read or written.
#[derive(Clone, Copy, Debug, Default, PartialEq, Eq)]
pub struct Access {
    pub clock: u64,
    pub addr: u16,
    pub value: u8,
    pub write: bool,
}

impl Access {
    ghost use Rattle.catchup_engine.specs.Trace.{no_access};

    /// No access: zeros, and no write.
    pub(crate) const fn none() -> Access
        ensures { result ≡ no_access }
    {
        Access {
            clock: 0,
            addr: 0,
            value: 0,
            write: false,
        }
    }
}

/// What one sequence did, or what was left of it.
///
/// `opcode` is 0 for an interrupt, for a reset, and for a board that is jammed, which makes no
/// access. The first `count` of `accesses`, at most 7, are those made, dropped reads included;
/// those after them are zeros.
#[derive(Clone, Copy, Debug, PartialEq, Eq)]
pub struct Trace {
    pub sequence: Sequence,
    pub opcode: u8,
    pub count: u8,
    pub accesses: [Access; 7],
}

impl Model for Trace {
    ghost use Rattle.catchup_engine.specs.Trace.{TraceValue, IsTrace};

    ghost Value = { TraceValue };

    ghost view = { λ t. record { sequence = t.sequence; opcode = t.opcode; count = t.count; accesses = t.accesses } };

    ghost invariant = { λ t. IsTrace (record { sequence = t.sequence; opcode = t.opcode; count = t.count; accesses = t.accesses }) };

    ghost inverse = { λ t. record { sequence = t.sequence; opcode = t.opcode; count = t.count; accesses = t.accesses } };
}

impl Trace {
    ghost use Rattle.catchup_engine.specs.Trace.{first_value, no_trace, opcode_by, pushed};

    /// A trace of nothing.
    pub fn new() -> Trace
        ensures { result ≡ no_trace }
    {
        Trace {
            sequence: Sequence::Opcode,
            opcode: 0,
            count: 0,
            accesses: [Access::none(); 7],
        }
    }

    /// The trace as that of this sequence, whose first byte is this one.
    fn named(self, sequence: Sequence, first: u8) -> Trace
        ensures { result ≡ record self { sequence = sequence; opcode = opcode_by sequence first } }
    {
        let opcode = match sequence {
            Sequence::Opcode => first,
            _ => 0,
        };
        Trace {
            sequence,
            opcode,
            ..self
        }
    }

    /// The byte of its first access.
    fn first_byte(&self) -> u8
        ensures { result ≡ first_value self.now.accesses }
    {
        let [first, ..] = self.accesses;
        first.value
    }

    /// Adds an access.
    fn push(&mut self, access: Access)
        requires { self.old.count < 7 }
        ensures { self.new ≡ pushed self.old access }
    {
        self.accesses[usize::from(self.count)] = access;
        self.count += 1;
    }
}

/// A bus that records each access.
struct TracedBus<'a, S: Units> {
    bus: &'a mut BoardBus<S>,
    trace: Trace,
}

impl<'a, S: Units> TracedBus<'a, S> {
    /// A bus that goes on with a trace.
    fn new(bus: &'a mut BoardBus<S>, trace: Trace) -> TracedBus<'a, S>
        ensures same_reference { result.bus.ghost_name ≡ bus.entry.ghost_name }
        ensures bus { result.bus.now ≡ bus.old }
        ensures trace { result.trace ≡ trace }
    {
        TracedBus { bus, trace }
    }

    /// Does a whole instruction or interrupt sequence.
    fn perform(&mut self, cpu: &mut Cpu, sequence: Sequence, tape: &Tape)
        requires running { cpu.old.jam ≡ None }
        requires boundary { cpu.old.mid ≡ None }
        requires accepts { Accepts tape.now self.old.bus.now }
        requires room { MAX_SEQUENCE_CLOCKS ≤ room_of self.old.bus.now }
        requires first { self.old.trace.count ≡ 0 }
        requires no_reset { sequence ≢ Sequence.Reset }
        ensures same_reference { self.new.bus.ghost_name ≡ self.old.bus.ghost_name }
        ensures runs { Runs (TracedStep tape.now.entries) (start_of sequence cpu.old) sequence (traced self.old.bus.now self.old.trace) (traced self.new.bus.now self.new.trace) cpu.new }
        ensures boundary { cpu.new.mid ≡ None }
        ensures accepts { Accepts tape.now self.new.bus.now }
    {
        perform(cpu, sequence, self, tape);
    }

    /// Makes the first access of a reset.
    fn begin(&mut self, cpu: &mut Cpu, tape: &Tape)
        requires running { cpu.old.jam ≡ None }
        requires boundary { cpu.old.mid ≡ None }
        requires clock_open { self.old.bus.now.clock_open ≡ true }
        requires accepts { Accepts tape.now self.old.bus.now }
        requires room { 1 ≤ room_of self.old.bus.now }
        requires first { self.old.trace.count ≡ 0 }
        ensures same_reference { self.new.bus.ghost_name ≡ self.old.bus.ghost_name }
        ensures advances { (made : ℕ) × Advances (TracedStep tape.now.entries) (start_of Sequence.Reset cpu.old) Sequence.Reset [] 1 made (traced self.old.bus.now self.old.trace) (traced self.new.bus.now self.new.trace) cpu.new }
        ensures accepts { Accepts tape.now self.new.bus.now }
        ensures room { room_of self.old.bus.now ≤ room_of self.new.bus.now + 1 }
    {
        let _fetched = cpu.begin(Sequence::Reset, self, tape, 1);
    }

    /// Does what is left of the sequence under way, in so many clocks at most.
    fn resume(&mut self, cpu: &mut Cpu, tape: &Tape, clocks: u8)
        requires middle { IsSome cpu.old.mid }
        requires accepts { Accepts tape.now self.old.bus.now }
        requires some { 1 ≤ clocks }
        requires few { self.old.trace.count + clocks ≤ 7 }
        requires room { clocks ≤ room_of self.old.bus.now }
        ensures same_reference { self.new.bus.ghost_name ≡ self.old.bus.ghost_name }
        ensures advances { IfSome cpu.old.mid (λ m. (made : ℕ) × Advances (TracedStep tape.now.entries) (registers_of cpu.old) m.sequence (given_by m) clocks made (traced self.old.bus.now self.old.trace) (traced self.new.bus.now self.new.trace) cpu.new) }
        ensures accepts { Accepts tape.now self.new.bus.now }
    {
        // the place in the sequence, for the proof
        let _place = cpu.state();
        let _made = cpu.resume(self, tape, clocks);
    }
}

impl<'a, S: Units> Bus for TracedBus<'a, S> {
    ghost use Rattle.std.specs.Prelude.{◌≡◌, ◌-◌, min};
    ghost use Rattle.catchup_engine.specs.Bus.{Accepts, room_of};
    ghost use Rattle.catchup_engine.specs.Trace.{TracedStep, traced};

    type Feed = Tape;

    ghost step = { λ tape x s t. (t.bus.ghost_name ≡ s.bus.ghost_name) × TracedStep tape.entries x (traced s.bus.now s.trace) (traced t.bus.now t.trace) };

    ghost accepts = { λ tape s. Accepts tape s.bus.now };

    ghost room = { λ s. min (room_of s.bus.now) (7 - s.trace.count) };

    fn read(&mut self, tape: &Tape, addr: u16) -> u8 {
        let value = self.bus.read(tape, addr);
        self.trace.push(Access {
            clock: self.bus.clock() - 1,
            addr,
            value,
            write: false,
        });
        value
    }

    fn write(&mut self, tape: &Tape, addr: u16, value: u8) {
        self.bus.write(tape, addr, value);
        self.trace.push(Access {
            clock: self.bus.clock() - 1,
            addr,
            value,
            write: true,
        });
    }
}

/// Does a whole instruction or interrupt sequence, and returns its accesses.
fn trace_whole<S: Units>(
    cpu: &mut Cpu,
    sequence: Sequence,
    bus: &mut BoardBus<S>,
    tape: &Tape,
) -> Trace
    requires running { cpu.old.jam ≡ None }
    requires boundary { cpu.old.mid ≡ None }
    requires accepts { Accepts tape.now bus.old }
    requires room { MAX_SEQUENCE_CLOCKS ≤ room_of bus.old }
    requires no_reset { sequence ≢ Sequence.Reset }
    ensures runs { Runs (TracedStep tape.now.entries) (start_of sequence cpu.old) sequence (traced bus.old no_trace) (traced bus.new result) cpu.new }
    ensures boundary { cpu.new.mid ≡ None }
    ensures accepts { Accepts tape.now bus.new }
{
    let mut traced = TracedBus::new(bus, Trace::new());
    traced.perform(cpu, sequence, tape);
    let TracedBus { bus: back, trace } = traced;
    // opens the model
    let _same = &*back;
    trace
}

/// Makes the first access of a reset, and returns it.
fn trace_first<S: Units>(cpu: &mut Cpu, bus: &mut BoardBus<S>, tape: &Tape) -> Trace
    requires running { cpu.old.jam ≡ None }
    requires boundary { cpu.old.mid ≡ None }
    requires clock_open { bus.old.clock_open ≡ true }
    requires accepts { Accepts tape.now bus.old }
    requires room { 1 ≤ room_of bus.old }
    ensures advances { (made : ℕ) × Advances (TracedStep tape.now.entries) (start_of Sequence.Reset cpu.old) Sequence.Reset [] 1 made (traced bus.old no_trace) (traced bus.new result) cpu.new }
    ensures accepts { Accepts tape.now bus.new }
    ensures room { room_of bus.old ≤ room_of bus.new + 1 }
{
    let mut traced = TracedBus::new(bus, Trace::new());
    traced.begin(cpu, tape);
    let TracedBus { bus: back, trace } = traced;
    // opens the model
    let _same = &*back;
    trace
}

/// Does what is left of the sequence under way, in so many clocks at most, and returns its accesses
/// after those of a trace.
fn trace_rest<S: Units>(
    cpu: &mut Cpu,
    bus: &mut BoardBus<S>,
    tape: &Tape,
    trace: Trace,
    clocks: u8,
) -> Trace
    requires middle { IsSome cpu.old.mid }
    requires accepts { Accepts tape.now bus.old }
    requires some { 1 ≤ clocks }
    requires few { trace.count + clocks ≤ 7 }
    requires room { clocks ≤ room_of bus.old }
    ensures advances { IfSome cpu.old.mid (λ m. (made : ℕ) × Advances (TracedStep tape.now.entries) (registers_of cpu.old) m.sequence (given_by m) clocks made (traced bus.old trace) (traced bus.new result) cpu.new) }
    ensures accepts { Accepts tape.now bus.new }
{
    let mut traced = TracedBus::new(bus, trace);
    traced.resume(cpu, tape, clocks);
    let TracedBus { bus: back, trace } = traced;
    // opens the model
    let _same = &*back;
    trace
}

/// Does a whole reset, and returns its accesses. Its effects come in its first clock, after the
/// access.
fn trace_reset<S: Units>(cpu: &mut Cpu, bus: &mut BoardBus<S>, tape: &Tape) -> Trace
    requires running { cpu.old.jam ≡ None }
    requires boundary { cpu.old.mid ≡ None }
    requires clock_open { bus.old.clock_open ≡ true }
    requires accepts { Accepts tape.now bus.old }
    requires room { 8 ≤ room_of bus.old }
    ensures resets { TracedReset tape.now.entries cpu.old bus.old (traced bus.new result) cpu.new }
    ensures accepts { Accepts tape.now bus.new }
{
    let trace = trace_first(cpu, bus, tape);
    bus.begin_reset();
    trace_rest(cpu, bus, tape, trace, MAX_SEQUENCE_CLOCKS - 1)
}

/// Does the sequence that a fetch begins, and returns its accesses.
fn trace_fetch<S: Units>(cpu: &mut Cpu, bus: &mut BoardBus<S>, tape: &Tape) -> Trace
    requires ready { CanTurn MAX_SEQUENCE_CLOCKS tape.now bus.old }
    requires running { cpu.old.jam ≡ None }
    requires boundary { cpu.old.mid ≡ None }
    ensures turned { TurnedBus tape.now.entries MAX_SEQUENCE_CLOCKS cpu.old bus.old bus.new cpu.new }
    ensures trace { result ≡ trace_of tape.now.entries (bus.new.peripherals.clock - bus.old.peripherals.clock) (over_bus cpu.old bus.old) }
    ensures accepts { Accepts tape.now bus.new }
{
    bus.begin(tape);
    let sequence = due(cpu, bus);
    match sequence {
        Sequence::Reset => {
            let trace = trace_reset(cpu, bus, tape);
            trace.named(sequence, 0)
        }
        _ => {
            let trace = trace_whole(cpu, sequence, bus, tape);
            let first = trace.first_byte();
            trace.named(sequence, first)
        }
    }
}

/// Does what is left of the sequence under way, and returns its accesses.
fn trace_middle<S: Units>(cpu: &mut Cpu, bus: &mut BoardBus<S>, tape: &Tape) -> Trace
    requires ready { CanTurn MAX_SEQUENCE_CLOCKS tape.now bus.old }
    requires middle { IsSome cpu.old.mid }
    ensures turned { TurnedBus tape.now.entries MAX_SEQUENCE_CLOCKS cpu.old bus.old bus.new cpu.new }
    ensures trace { result ≡ trace_of tape.now.entries (bus.new.peripherals.clock - bus.old.peripherals.clock) (over_bus cpu.old bus.old) }
    ensures accepts { Accepts tape.now bus.new }
{
    let Some(mid) = cpu.state().mid else {
        unreachable!()
    };
    // the bytes of the place, for the proof
    let _count = mid.count;
    let trace = trace_rest(cpu, bus, tape, Trace::new(), MAX_SEQUENCE_CLOCKS);
    trace.named(mid.sequence, mid.bytes[0])
}

/// Does what is left of the sequence under way, or else one instruction or sequence, and returns
/// its accesses.
pub(crate) fn trace_running<S: Units>(cpu: &mut Cpu, bus: &mut BoardBus<S>, tape: &Tape) -> Trace
    requires ready { CanTurn MAX_SEQUENCE_CLOCKS tape.now bus.old }
    requires running { cpu.old.jam ≡ None }
    ensures turned { TurnedBus tape.now.entries MAX_SEQUENCE_CLOCKS cpu.old bus.old bus.new cpu.new }
    ensures trace { result ≡ trace_of tape.now.entries (bus.new.peripherals.clock - bus.old.peripherals.clock) (over_bus cpu.old bus.old) }
    ensures accepts { Accepts tape.now bus.new }
{
    if cpu.state().mid.is_some() {
        trace_middle(cpu, bus, tape)
    } else {
        trace_fetch(cpu, bus, tape)
    }
}

/// Does what `trace_running` does; a processor that is jammed makes no access.
pub(crate) fn trace_sequence<S: Units>(cpu: &mut Cpu, bus: &mut BoardBus<S>, tape: &Tape) -> Trace
    requires ready { CanTurn MAX_SEQUENCE_CLOCKS tape.now bus.old }
    requires range { IsInRange cpu.old bus.old }
    requires early { cpu.old.mid ≡ None → bus.old.peripherals.clock < CLOCK_LIMIT }
    ensures run { BoundaryRun tape.now.entries (bus.old.peripherals.clock + 1) cpu.old bus.old bus.new cpu.new }
    ensures trace { result ≡ step_trace tape.now.entries (over_bus cpu.old bus.old) }
{
    if cpu.state().jam.is_some() {
        return Trace::new();
    }
    trace_running(cpu, bus, tape)
}
