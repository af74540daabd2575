//! Runs of the processor over the bus, turn by turn.
ghost use Rattle.std.specs.Prelude.{◌≡◌, ◌+◌, ◌≤◌, ◌<◌, ◌⊎◌, ◌&&◌, ◌||◌, not, None, IfSome};
ghost use Rattle.cpu_core.specs.Places.{IsMiddle};
ghost use Rattle.catchup_engine.specs.Bus.{Accepts, Looked};
ghost use Rattle.lockstep_board.specs.Run.{is_over, is_cut};
ghost use Rattle.catchup_engine.specs.Turn.{reads_opcode};
ghost use Rattle.catchup_engine.specs.StopConditions.{asks_generator, stops_at};
ghost use Rattle.catchup_engine.specs.Runs.{over_bus, BoundaryRun, BreakRunBus, CanRun, CanTakeTurns, CutRun, IsInRange, QuietRun, TracedBusRun, TurnsRun};

use crate::bus::{BoardBus, MAX_SEQUENCE_CLOCKS, is_private};
use crate::devices::Units;
use crate::note::{Reached, TurnNote};
use crate::noted::trace_to_horizon;
use crate::quiet::run_to_horizon;
use crate::stop_conditions::{Breaks, Nowhere, StopConditions, is_stop};
use crate::trace::trace_running;
use crate::tracer::Tracer;
use crate::turn::{reads_opcode, step_slow};
use cpu_core::Cpu;
use tape_ports::Tape;

/// Whether a run to a boundary is over.
#[inline(always)]
fn is_done<S: Units>(cpu: &Cpu, bus: &BoardBus<S>, limit: u64) -> bool
    ensures { result ≡ is_over limit (over_bus cpu.now bus.now) }
{
    let state = cpu.state();
    state.jam.is_some() || state.mid.is_none() && limit <= bus.clock()
}

/// Whether a run to a clock, or to the first boundary after a wrap, is over.
fn is_stopped<S: Units>(cpu: &Cpu, bus: &BoardBus<S>, cut: u64, wrap: u64) -> bool
    ensures { result ≡ is_cut cut wrap (over_bus cpu.now bus.now) }
{
    let state = cpu.state();
    state.jam.is_some() || cut <= bus.clock() || state.mid.is_none() && wrap <= bus.clock()
}

/// Whether a run to a boundary is over, or stops here.
#[inline(always)]
fn is_at_end<S: Units, B: Breaks>(cpu: &Cpu, bus: &mut BoardBus<S>, limit: u64, breaks: &B) -> bool
    ensures value { result ≡ (is_over limit (over_bus cpu.now bus.old) || stops_at (B.conditions breaks.now) (over_bus cpu.now bus.old)) }
    ensures looked { Looked (asks_generator (B.conditions breaks.now)) bus.old bus.new }
{
    is_done(cpu, bus, limit) || is_stop(cpu, bus, breaks)
}

/// Whether a run isn't over, and the next fetch reads an opcode in whose clocks no event is due. It
/// is called once between two events.
#[inline(never)]
fn goes_on<S: Units>(cpu: &Cpu, bus: &BoardBus<S>, limit: u64) -> bool
    requires range { IsInRange cpu.now bus.now }
    ensures { result ≡ (not (is_over limit (over_bus cpu.now bus.now)) && reads_opcode cpu.now bus.now) }
{
    !is_done(cpu, bus, limit) && reads_opcode(cpu, bus)
}

/// Whether a run goes on so, and doesn't stop here.
#[inline(always)]
fn goes_fast<S: Units, B: Breaks>(cpu: &Cpu, bus: &mut BoardBus<S>, limit: u64, breaks: &B) -> bool
    requires range { IsInRange cpu.now bus.old }
    ensures value { result ≡ (not (is_over limit (over_bus cpu.now bus.old) || stops_at (B.conditions breaks.now) (over_bus cpu.now bus.old)) && reads_opcode cpu.now bus.old) }
    ensures looked { Looked (asks_generator (B.conditions breaks.now)) bus.old bus.new }
{
    goes_on(cpu, bus, limit) && !is_stop(cpu, bus, breaks)
}

/// Does instructions in whose clocks no event is due, up to the limit or to where the run stops.
///
/// A run without a tracer makes most of its clocks here. As nothing that this loop calls takes the processor,
/// LLVM keeps its registers out of memory.
#[inline(always)]
fn run_fast<S: Units, B: Breaks, const WIRED: bool>(
    mut cpu: Cpu,
    bus: &mut BoardBus<S>,
    tape: &Tape,
    limit: u64,
    breaks: &B,
) -> Cpu
    requires ready { CanTakeTurns limit tape.now cpu bus.old }
    requires boundary { cpu.mid ≡ None }
    ensures runs { QuietRun tape.now.entries limit (B.conditions breaks.now) cpu bus.old bus.new result }
    ensures accepts { Accepts tape.now bus.new }
{
    let mut on = goes_fast(&cpu, bus, limit, breaks);
    while on {
        cpu = run_to_horizon::<S, B, WIRED>(cpu, bus, tape, limit, breaks);
        on = goes_fast(&cpu, bus, limit, breaks);
    }
    cpu
}

/// Does whole sequences up to the limit, or to where the run stops.
///
/// All runs without stops and tracers share one such loop, since LLVM puts the processor into it
/// only where it is called once. Runs to stops have a second, and so has either where the POKEYs
/// are wired: a loop that asks for the interrupt line is slower.
#[inline(never)]
fn run_turns<S: Units, B: Breaks, const WIRED: bool>(
    mut cpu: Cpu,
    bus: &mut BoardBus<S>,
    tape: &Tape,
    limit: u64,
    breaks: &B,
) -> Cpu
    requires ready { CanTakeTurns limit tape.now cpu bus.old }
    requires boundary { cpu.mid ≡ None }
    ensures runs { TurnsRun tape.now.entries limit (B.conditions breaks.now) cpu bus.old bus.new result }
    ensures accepts { Accepts tape.now bus.new }
{
    // opens its range
    let _clock = bus.clock();
    let mut ended = is_at_end(&cpu, bus, limit, breaks);
    while !ended {
        cpu = step_slow(cpu, bus, tape, MAX_SEQUENCE_CLOCKS);
        cpu = run_fast::<S, B, WIRED>(cpu, bus, tape, limit, breaks);
        ended = is_at_end(&cpu, bus, limit, breaks);
    }
    cpu
}

/// Does whole sequences up to the limit, or to where the run stops, by the loop of the board's
/// wiring.
#[inline(always)]
fn run_by_wiring<S: Units, B: Breaks>(
    cpu: Cpu,
    bus: &mut BoardBus<S>,
    tape: &Tape,
    limit: u64,
    breaks: &B,
) -> Cpu
    requires ready { CanTakeTurns limit tape.now cpu bus.old }
    requires boundary { cpu.mid ≡ None }
    ensures runs { TurnsRun tape.now.entries limit (B.conditions breaks.now) cpu bus.old bus.new result }
    ensures accepts { Accepts tape.now bus.new }
{
    if bus.is_wired() {
        run_turns::<S, B, true>(cpu, bus, tape, limit, breaks)
    } else {
        run_turns::<S, B, false>(cpu, bus, tape, limit, breaks)
    }
}

/// Does the rest of the sequence under way, if there is one, and then whole sequences up to the
/// limit.
pub(crate) fn run_until<S: Units>(
    mut cpu: Cpu,
    bus: &mut BoardBus<S>,
    tape: &Tape,
    limit: u64,
) -> Cpu
    requires ready { CanRun limit limit tape.now cpu bus.old }
    ensures runs { BoundaryRun tape.now.entries limit cpu bus.old bus.new result }
{
    // opens its range
    let _clock = bus.clock();
    if cpu.state().mid.is_some() {
        cpu = step_slow(cpu, bus, tape, MAX_SEQUENCE_CLOCKS);
    }
    run_by_wiring(cpu, bus, tape, limit, &Nowhere)
}

/// Does a turn, unless the processor is jammed, and then others up to the limit or to where the run
/// stops.
pub(crate) fn run_to_stop<S: Units>(
    mut cpu: Cpu,
    bus: &mut BoardBus<S>,
    tape: &Tape,
    limit: u64,
    stops: &StopConditions<'_>,
) -> Cpu
    requires ready { CanRun limit limit tape.now cpu bus.old }
    requires before { bus.old.peripherals.clock < limit }
    ensures runs { BreakRunBus tape.now.entries limit stops.now cpu bus.old bus.new result }
{
    // opens its range
    let _clock = bus.clock();
    if cpu.state().jam.is_none() {
        cpu = step_slow(cpu, bus, tape, MAX_SEQUENCE_CLOCKS);
    }
    run_by_wiring(cpu, bus, tape, limit, stops)
}

/// Does turns up to the limit, each of which is passed to a tracer, or up to one after which it has
/// enough. Boards whose POKEYs are wired have a loop of their own.
#[inline(never)]
fn trace_turns<S: Units, T: Tracer, const WIRED: bool>(
    mut cpu: Cpu,
    bus: &mut BoardBus<S>,
    tape: &Tape,
    limit: u64,
    tracer: &mut T,
) -> Cpu
    requires ready { CanRun limit limit tape.now cpu bus.old }
    requires place { IfSome cpu.mid (λ _. IsMiddle cpu) }
    ensures runs { TracedBusRun T.next T.has_enough tape.now.entries limit cpu bus.old bus.new result tracer.old tracer.new }
{
    // opens its range
    let _clock = bus.clock();
    let mut enough = false;
    while !enough && !is_done(&cpu, bus, limit) {
        if goes_on(&cpu, bus, limit) && is_private(cpu.state().pc) {
            let turns = trace_to_horizon::<S, T, WIRED>(cpu, bus, tape, limit, tracer);
            cpu = turns.cpu;
            enough = turns.enough;
        } else {
            let trace = trace_running(&mut cpu, bus, tape);
            let reached = Reached::of(&trace);
            enough = tracer.turn(&TurnNote::of(&trace, &reached), cpu.state().pc);
        }
    }
    cpu
}

/// Does turns up to the limit, each of which is passed to a tracer, or up to one after which it has
/// enough, by the loop of the board's wiring.
pub(crate) fn run_traced<S: Units, T: Tracer>(
    cpu: Cpu,
    bus: &mut BoardBus<S>,
    tape: &Tape,
    limit: u64,
    tracer: &mut T,
) -> Cpu
    requires ready { CanRun limit limit tape.now cpu bus.old }
    requires place { IfSome cpu.mid (λ _. IsMiddle cpu) }
    ensures runs { TracedBusRun T.next T.has_enough tape.now.entries limit cpu bus.old bus.new result tracer.old tracer.new }
{
    if bus.is_wired() {
        trace_turns::<S, T, true>(cpu, bus, tape, limit, tracer)
    } else {
        trace_turns::<S, T, false>(cpu, bus, tape, limit, tracer)
    }
}

/// The clocks of a turn that isn't to go past a clock.
fn clocks_to(clock: u64, cut: u64) -> u8
    requires { clock < cut }
    ensures some { 1 ≤ result }
    ensures few { result ≤ MAX_SEQUENCE_CLOCKS }
    ensures within { clock + result ≤ cut }
    ensures all { result ≡ MAX_SEQUENCE_CLOCKS ⊎ clock + result ≡ cut }
{
    let left = cut - clock;
    if left < u64::from(MAX_SEQUENCE_CLOCKS) {
        left as u8
    } else {
        MAX_SEQUENCE_CLOCKS
    }
}

/// Does as many clocks as there are to a cut, unless a boundary comes after the wrap before.
pub(crate) fn run_to_cut<S: Units>(
    mut cpu: Cpu,
    bus: &mut BoardBus<S>,
    tape: &Tape,
    cut: u64,
    wrap: u64,
) -> Cpu
    requires ready { CanRun cut wrap tape.now cpu bus.old }
    ensures runs { CutRun tape.now.entries cut wrap cpu bus.old bus.new result }
{
    // A turn that begins before this clock ends at the cut at the latest.
    let near = wrap.min(cut.saturating_sub(6));
    while !is_stopped(&cpu, bus, cut, wrap) {
        let clocks = clocks_to(bus.clock(), cut);
        cpu = step_slow(cpu, bus, tape, clocks);
        if cpu.state().mid.is_none() {
            cpu = run_by_wiring(cpu, bus, tape, near, &Nowhere);
        }
    }
    cpu
}
