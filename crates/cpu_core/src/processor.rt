ghost use Rattle.std.specs.Prelude.{◌≡◌, ◌+◌, ◌≤◌, ℕ, [], None, IfSome, IsSome, true};
ghost use Rattle.cpu_table.specs.Opcodes.{row_of};
ghost use Rattle.cpu_alu.specs.Flags.{is_masked};
ghost use Rattle.cpu_core.specs.Registers.{registers_of};
ghost use Rattle.cpu_core.specs.Sequences.{start_of, Runs};
ghost use Rattle.cpu_core.specs.Places.{Advances, BeginsWith, Fetches, IsMiddle, fetched_of, given_by};

use crate::bus::Bus;
use crate::fetched::Fetched;
use crate::operations::masked;
use crate::pause;
use crate::registers::Registers;
use crate::sequence::{perform, perform_by_jump};
use board_base::{CpuState, Sequence};
use std::marker::Model;

/// The processor.
///
/// A jam opcode is always an undocumented one, and a place inside a sequence one that `is_middle`
/// accepts.
#[derive(Drop)]
pub struct Cpu {
    state: CpuState,
}

impl Model for Cpu {
    ghost use Rattle.board_base.specs.Cpu.{CpuValue};
    ghost use Rattle.cpu_core.specs.Places.{IsProcessor};

    ghost Value = { CpuValue };

    ghost view = { λ c. c.state };

    ghost invariant = { λ c. IsProcessor c.state };
}

impl Cpu {
    /// A processor in this state.
    pub fn new(state: CpuState) -> Cpu
        requires undocumented { IfSome state.jam (λ o. row_of o ≡ None) }
        requires place { IfSome state.mid (λ _. IsMiddle state) }
        ensures { result ≡ state }
    {
        Cpu { state }
    }

    /// The state of the processor.
    pub fn state(&self) -> &CpuState
        ensures value { result.now ≡ self.now }
        ensures undocumented { IfSome result.now.jam (λ o. row_of o ≡ None) }
        ensures place { IfSome result.now.mid (λ _. IsMiddle result.now) }
    {
        &self.state
    }

    /// Executes the instruction at `pc`: one access in each clock (MCS6500 Hardware Manual,
    /// appendix A).
    ///
    /// An undocumented opcode jams the processor. Its read is then the only access, and `pc` stays
    /// at it.
    #[inline(always)]
    pub fn instruction<B: Bus>(&mut self, bus: &mut B, feed: &B::Feed) -> Fetched
        requires running { self.old.jam ≡ None }
        requires boundary { self.old.mid ≡ None }
        requires accepts { B.accepts feed.now bus.old }
        requires room { 7 ≤ B.room bus.old }
        ensures runs { Runs (B.step feed.now) (registers_of self.old) Sequence.Opcode bus.old bus.new self.new }
        ensures fetches { Fetches (B.step feed.now) self.old bus.old bus.new self.new }
        ensures boundary { self.new.mid ≡ None }
        ensures jammed { result ≡ fetched_of self.new.jam }
        ensures accepts { B.accepts feed.now bus.new }
        ensures room { B.room bus.old ≤ B.room bus.new + 7 }
    {
        self.state = perform(Registers::of(&self.state), Sequence::Opcode, bus, feed);
        fetched(&self.state)
    }

    /// Executes the instruction at `pc`, as `instruction` does, with code of its own for each of the
    /// commonest opcodes. It is for a loop that has the only call on its bus.
    #[inline(always)]
    pub fn instruction_by_jump<B: Bus>(&mut self, bus: &mut B, feed: &B::Feed) -> Fetched
        requires running { self.old.jam ≡ None }
        requires boundary { self.old.mid ≡ None }
        requires accepts { B.accepts feed.now bus.old }
        requires room { 7 ≤ B.room bus.old }
        ensures runs { Runs (B.step feed.now) (registers_of self.old) Sequence.Opcode bus.old bus.new self.new }
        ensures fetches { Fetches (B.step feed.now) self.old bus.old bus.new self.new }
        ensures boundary { self.new.mid ≡ None }
        ensures jammed { result ≡ fetched_of self.new.jam }
        ensures accepts { B.accepts feed.now bus.new }
        ensures room { B.room bus.old ≤ B.room bus.new + 7 }
    {
        self.state = perform_by_jump(&Registers::of(&self.state), bus, feed);
        fetched(&self.state)
    }

    /// Takes the interrupt, in seven clocks (MCS6500 Hardware Manual, appendix A).
    pub fn take_irq<B: Bus>(&mut self, bus: &mut B, feed: &B::Feed)
        requires running { self.old.jam ≡ None }
        requires boundary { self.old.mid ≡ None }
        requires accepts { B.accepts feed.now bus.old }
        requires room { 7 ≤ B.room bus.old }
        ensures runs { Runs (B.step feed.now) (registers_of self.old) Sequence.Interrupt bus.old bus.new self.new }
        ensures running { self.new.jam ≡ None }
        ensures boundary { self.new.mid ≡ None }
        ensures accepts { B.accepts feed.now bus.new }
        ensures room { B.room bus.old ≤ B.room bus.new + 7 }
    {
        self.state = perform(Registers::of(&self.state), Sequence::Interrupt, bus, feed);
    }

    /// Takes the reset, in seven clocks (MCS6500 Hardware Manual, appendix A). `s` falls by 3, and
    /// interrupts are masked.
    pub fn take_reset<B: Bus>(&mut self, bus: &mut B, feed: &B::Feed)
        requires running { self.old.jam ≡ None }
        requires boundary { self.old.mid ≡ None }
        requires accepts { B.accepts feed.now bus.old }
        requires room { 7 ≤ B.room bus.old }
        ensures runs { Runs (B.step feed.now) (start_of Sequence.Reset self.old) Sequence.Reset bus.old bus.new self.new }
        ensures running { self.new.jam ≡ None }
        ensures boundary { self.new.mid ≡ None }
        ensures accepts { B.accepts feed.now bus.new }
        ensures room { B.room bus.old ≤ B.room bus.new + 7 }
    {
        self.state = perform(
            start(Sequence::Reset, &self.state),
            Sequence::Reset,
            bus,
            feed,
        );
    }

    /// Begins a sequence: its first `clocks` accesses, or all where there are fewer.
    #[tactic(auto, using(crate::proofs::JamLemmas::begins_at_rest))]
    pub fn begin<B: Bus>(
        &mut self,
        sequence: Sequence,
        bus: &mut B,
        feed: &B::Feed,
        clocks: u8,
    ) -> Fetched
        requires running { self.old.jam ≡ None }
        requires boundary { self.old.mid ≡ None }
        requires some { 1 ≤ clocks }
        requires few { clocks ≤ 7 }
        requires accepts { B.accepts feed.now bus.old }
        requires room { clocks ≤ B.room bus.old }
        ensures advances { (made : ℕ) × Advances (B.step feed.now) (start_of sequence self.old) sequence [] clocks made bus.old bus.new self.new }
        ensures begins { BeginsWith (B.step feed.now) sequence self.old bus.old bus.new self.new }
        ensures jammed { result ≡ fetched_of self.new.jam }
        ensures accepts { B.accepts feed.now bus.new }
        ensures room { B.room bus.old ≤ B.room bus.new + clocks }
    {
        let registers = start(sequence, &self.state);
        self.state = pause::begin(registers, sequence, bus, feed, clocks);
        fetched(&self.state)
    }

    /// Goes on with the sequence under way: its next `clocks` accesses, or all that are left where
    /// there are fewer. The answer is the number of accesses made.
    pub fn resume<B: Bus>(&mut self, bus: &mut B, feed: &B::Feed, clocks: u8) -> u8
        requires middle { IsSome self.old.mid }
        requires some { 1 ≤ clocks }
        requires few { clocks ≤ 7 }
        requires accepts { B.accepts feed.now bus.old }
        requires room { clocks ≤ B.room bus.old }
        ensures advances { IfSome self.old.mid (λ m. Advances (B.step feed.now) (registers_of self.old) m.sequence (given_by m) clocks result bus.old bus.new self.new) }
        ensures running { self.new.jam ≡ None }
        ensures accepts { B.accepts feed.now bus.new }
        ensures room { B.room bus.old ≤ B.room bus.new + result }
    {
        let state = self.state;
        let Some(mid) = state.mid else { unreachable!() };
        let (state, made) = pause::resume(Registers::of(&state), &mid, bus, feed, clocks);
        self.state = state;
        made
    }
}

/// The registers that a sequence starts from.
fn start(sequence: Sequence, state: &CpuState) -> Registers
    ensures value { result ≡ start_of sequence state.now }
    ensures masked { sequence ≡ Sequence.Reset → is_masked result.p ≡ true }
{
    let mut registers = Registers::of(state);
    if let Sequence::Reset = sequence {
        registers.s = registers.s.wrapping_sub(3);
        registers.p = masked(registers.p);
    }
    registers
}

/// Whether the processor is jammed, and by which opcode.
#[inline(always)]
fn fetched(state: &CpuState) -> Fetched
    ensures { result ≡ fetched_of state.now.jam }
{
    match state.jam {
        None => Fetched::Done,
        Some(opcode) => Fetched::Jammed(opcode),
    }
}
