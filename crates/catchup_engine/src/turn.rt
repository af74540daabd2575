//! One turn of the board: what is left of a sequence, or the sequence that a fetch begins.
ghost use Rattle.std.specs.Prelude.{◌≡◌, ◌≢◌, ◌+◌, ◌<◌, ◌≤◌, ℕ, [], None, IsSome};
ghost use Rattle.cpu_core.specs.Places.{Advances};
ghost use Rattle.cpu_core.specs.Sequences.{start_of, Runs};
ghost use Rattle.catchup_engine.specs.Bus.{Accepts, BusStep, room_of};
ghost use Rattle.lockstep_board.specs.Lockstep.{sequence_due};
ghost use Rattle.catchup_engine.specs.Turn.{CanTurn, Resets, TurnedBus, reads_opcode};

use crate::bus::{BoardBus, MAX_SEQUENCE_CLOCKS};
use crate::devices::Units;
use board_base::{CLOCK_END, Pending, Sequence};
use cpu_alu::Flags;
use cpu_core::{Bus, Cpu};
use tape_ports::Tape;

/// What a fetch begins in a clock whose ticks are done.
pub(crate) fn due<S: Units>(cpu: &Cpu, bus: &BoardBus<S>) -> Sequence
    ensures { result ≡ sequence_due cpu.now bus.now.peripherals }
{
    if bus.pending() != Pending::Nothing {
        Sequence::Reset
    } else if bus.line() && !Flags::from_byte(cpu.state().p).interrupt {
        Sequence::Interrupt
    } else {
        Sequence::Opcode
    }
}

/// Does a whole instruction or interrupt sequence.
#[inline(always)]
pub(crate) fn perform<B: Bus>(cpu: &mut Cpu, sequence: Sequence, bus: &mut B, feed: &B::Feed)
    requires running { cpu.old.jam ≡ None }
    requires boundary { cpu.old.mid ≡ None }
    requires accepts { B.accepts feed.now bus.old }
    requires room { MAX_SEQUENCE_CLOCKS ≤ B.room bus.old }
    requires no_reset { sequence ≢ Sequence.Reset }
    ensures runs { Runs (B.step feed.now) (start_of sequence cpu.old) sequence bus.old bus.new cpu.new }
    ensures boundary { cpu.new.mid ≡ None }
    ensures accepts { B.accepts feed.now bus.new }
{
    match sequence {
        Sequence::Interrupt => cpu.take_irq(bus, feed),
        _ => {
            let _fetched = cpu.instruction(bus, feed);
        }
    }
}

/// Does an instruction or an interrupt sequence, or its first clocks.
fn begin_sequence<S: Units>(
    cpu: &mut Cpu,
    sequence: Sequence,
    bus: &mut BoardBus<S>,
    tape: &Tape,
    clocks: u8,
)
    requires running { cpu.old.jam ≡ None }
    requires boundary { cpu.old.mid ≡ None }
    requires accepts { Accepts tape.now bus.old }
    requires some { 1 ≤ clocks }
    requires few { clocks ≤ MAX_SEQUENCE_CLOCKS }
    requires room { clocks ≤ room_of bus.old }
    requires no_reset { sequence ≢ Sequence.Reset }
    ensures advances { (made : ℕ) × Advances (BusStep tape.now.entries) (start_of sequence cpu.old) sequence [] clocks made bus.old bus.new cpu.new }
    ensures accepts { Accepts tape.now bus.new }
{
    if clocks == MAX_SEQUENCE_CLOCKS {
        perform(cpu, sequence, bus, tape);
    } else {
        let _fetched = cpu.begin(sequence, bus, tape, clocks);
    }
}

/// Takes the pending reset, or its first clocks: its effects come in its first clock, after the
/// access.
fn take_reset<S: Units>(cpu: &mut Cpu, bus: &mut BoardBus<S>, tape: &Tape, clocks: u8)
    requires running { cpu.old.jam ≡ None }
    requires boundary { cpu.old.mid ≡ None }
    requires accepts { Accepts tape.now bus.old }
    requires some { 1 ≤ clocks }
    requires few { clocks ≤ MAX_SEQUENCE_CLOCKS }
    requires room { clocks + 1 ≤ room_of bus.old }
    ensures resets { Resets tape.now.entries cpu.old clocks bus.old bus.new cpu.new }
    ensures accepts { Accepts tape.now bus.new }
{
    let _fetched = cpu.begin(Sequence::Reset, bus, tape, 1);
    bus.begin_reset();
    if clocks == 1 {
        return;
    }
    let _made = cpu.resume(bus, tape, clocks - 1);
}

/// Does the sequence that a fetch begins, or its first clocks.
fn fetch<S: Units>(cpu: &mut Cpu, bus: &mut BoardBus<S>, tape: &Tape, clocks: u8)
    requires ready { CanTurn clocks tape.now bus.old }
    requires running { cpu.old.jam ≡ None }
    requires boundary { cpu.old.mid ≡ None }
    ensures turned { TurnedBus tape.now.entries clocks cpu.old bus.old bus.new cpu.new }
    ensures accepts { Accepts tape.now bus.new }
{
    bus.begin(tape);
    let sequence = due(cpu, bus);
    match sequence {
        Sequence::Reset => take_reset(cpu, bus, tape, clocks),
        _ => begin_sequence(cpu, sequence, bus, tape, clocks),
    }
}

/// Does the rest of the sequence under way, or its next clocks.
fn resume<S: Units>(cpu: &mut Cpu, bus: &mut BoardBus<S>, tape: &Tape, clocks: u8)
    requires ready { CanTurn clocks tape.now bus.old }
    requires middle { IsSome cpu.old.mid }
    ensures turned { TurnedBus tape.now.entries clocks cpu.old bus.old bus.new cpu.new }
    ensures accepts { Accepts tape.now bus.new }
{
    if let Some(mid) = cpu.state().mid {
        // opens the model
        let _count = mid.count;
        let _made = cpu.resume(bus, tape, clocks);
    }
}

/// Does a turn that may begin with anything.
#[inline(never)]
pub(crate) fn step_slow<S: Units>(
    mut cpu: Cpu,
    bus: &mut BoardBus<S>,
    tape: &Tape,
    clocks: u8,
) -> Cpu
    requires ready { CanTurn clocks tape.now bus.old }
    requires running { cpu.jam ≡ None }
    ensures turned { TurnedBus tape.now.entries clocks cpu bus.old bus.new result }
    ensures accepts { Accepts tape.now bus.new }
{
    if cpu.state().mid.is_some() {
        resume(&mut cpu, bus, tape, clocks);
        return cpu;
    }
    fetch(&mut cpu, bus, tape, clocks);
    cpu
}

/// Whether the next fetch reads an opcode and no event is due in its sequence's clocks, asked
/// before them.
#[inline(always)]
#[tactic(auto, using(crate::proofs::OpcodeLaws::opcodes, crate::proofs::QuietLaws::none_later), unfolding(crate::specs::Turn::reads_opcode))]
pub(crate) fn reads_opcode<S: Units>(cpu: &Cpu, bus: &BoardBus<S>) -> bool
    requires clock { bus.now.peripherals.clock < CLOCK_END }
    ensures { result ≡ reads_opcode cpu.now bus.now }
{
    let state = cpu.state();
    state.mid.is_none()
        && bus.is_quiet()
        && bus.next_pending() == Pending::Nothing
        && (Flags::from_byte(state.p).interrupt || !bus.line_after(0))
}
