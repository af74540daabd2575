ghost use Rattle.std.specs.Prelude.{◌≡◌, ◌+◌, ◌<◌, ◌≤◌, ◌↔◌, ℕ, [], None, IfSome, length, true};
ghost use Rattle.cpu_table.specs.Opcodes.{row_of};
ghost use Rattle.cpu_alu.specs.Flags.{is_masked};
ghost use Rattle.cpu_core.specs.Registers.{at_boundary};
ghost use Rattle.cpu_core.specs.BusCycles.{Access};
ghost use Rattle.cpu_core.specs.Sequences.{next_of, IsEnd, IsAccess};
ghost use Rattle.cpu_core.specs.Replays.{IfEnd};
ghost use Rattle.cpu_core.specs.Places.{Advances, BeginsWith, Gone, given_by, paused, standing, IsPlace, IsProcessor};

use crate::bus::Bus;
use crate::registers::Registers;
use crate::replay::{Next, Replay};
use crate::seen::{Seen, pad};
use crate::sequence::perform;
use board_base::{CpuState, Mid, Sequence};

/// What comes next in a sequence that began with these registers and has seen these bytes.
pub(crate) fn next_access(start: Registers, sequence: Sequence, given: &[u8]) -> Next
    ensures next { result ≡ next_of start sequence given.now }
    ensures end { IfEnd result (λ e. (e.mid ≡ None) × IfSome e.jam (λ o. row_of o ≡ None)) }
    ensures short { ¬ IsEnd result → length given.now < 7 }
{
    let mut replay = Replay::new(given);
    let end = perform(start, sequence, &mut replay, &());
    match replay.due() {
        Some(next) => next,
        None => Next::End(end),
    }
}

/// Makes an access that is due, and gives its byte.
fn make<B: Bus>(next: Next, bus: &mut B, feed: &B::Feed) -> u8
    requires due { ¬ IsEnd next }
    requires accepts { B.accepts feed.now bus.old }
    requires room { 1 ≤ B.room bus.old }
    ensures made { (x : Access) × IsAccess next result x × B.step feed.now x bus.old bus.new }
    ensures accepts { B.accepts feed.now bus.new }
    ensures room { B.room bus.old ≤ B.room bus.new + 1 }
{
    match next {
        Next::Read(addr) => bus.read(feed, addr),
        Next::Write(addr, value) => {
            bus.write(feed, addr, value);
            value
        }
        Next::End(_) => unreachable!(),
    }
}

/// Makes the next accesses of a sequence, as many as `clocks` or all that are left, and gives their
/// number.
#[tactic(auto, using(crate::proofs::PlaceLemmas::gone))]
pub(crate) fn go_on<B: Bus>(
    start: Registers,
    sequence: Sequence,
    seen: &mut Seen,
    bus: &mut B,
    feed: &B::Feed,
    clocks: u8,
) -> u8
    requires accepts { B.accepts feed.now bus.old }
    requires room { clocks ≤ B.room bus.old }
    ensures gone { Gone (B.step feed.now) start sequence seen.old seen.new result bus.old bus.new }
    ensures started { 1 ≤ clocks → 1 ≤ length seen.new }
    ensures few { result ≤ clocks }
    ensures full { ¬ IsEnd (next_of start sequence seen.new) → result ≡ clocks }
    ensures accepts { B.accepts feed.now bus.new }
    ensures room { B.room bus.old ≤ B.room bus.new + result }
{
    for made in 0..clocks {
        let next = next_access(start, sequence, seen.bytes());
        if let Next::End(_) = next {
            return made;
        }
        let byte = make(next, bus, feed);
        seen.push(byte);
    }
    clocks
}

/// The processor inside a sequence that began with these registers, after these bytes.
#[tactic(auto, using(crate::proofs::PlaceLemmas::paused_processor))]
fn pause(start: Registers, sequence: Sequence, seen: &[u8]) -> CpuState
    requires short { length seen.now ≤ 6 }
    requires started { 1 ≤ length seen.now }
    requires masked { sequence ≡ Sequence.Reset → is_masked start.p ≡ true }
    requires due { ¬ IsEnd (next_of start sequence seen.now) }
    ensures paused { result ≡ paused start sequence seen.now }
    ensures processor { IsProcessor result }
{
    CpuState {
        mid: Some(Mid {
            sequence,
            count: seen.len() as u8,
            bytes: pad(seen),
        }),
        ..start.at_boundary()
    }
}

/// The processor that has started a sequence with these registers and has seen these bytes.
pub(crate) fn stand(start: Registers, sequence: Sequence, seen: &[u8]) -> CpuState
    requires started { 1 ≤ length seen.now }
    requires masked { sequence ≡ Sequence.Reset → is_masked start.p ≡ true }
    ensures stands { result ≡ standing start sequence seen.now }
    ensures complete { (result.mid ≡ None) ↔ IsEnd (next_of start sequence seen.now) }
    ensures processor { IsProcessor result }
{
    match next_access(start, sequence, seen) {
        Next::End(end) => end,
        _ => pause(start, sequence, seen),
    }
}

/// Begins a sequence from these registers: its first `clocks` accesses, or all where there are
/// fewer. The answer is the processor after them.
pub(crate) fn begin<B: Bus>(
    start: Registers,
    sequence: Sequence,
    bus: &mut B,
    feed: &B::Feed,
    clocks: u8,
) -> CpuState
    requires masked { sequence ≡ Sequence.Reset → is_masked start.p ≡ true }
    requires some { 1 ≤ clocks }
    requires accepts { B.accepts feed.now bus.old }
    requires room { clocks ≤ B.room bus.old }
    ensures advances { (made : ℕ) × Advances (B.step feed.now) start sequence [] clocks made bus.old bus.new result }
    ensures begins { BeginsWith (B.step feed.now) sequence (at_boundary start) bus.old bus.new result }
    ensures processor { IsProcessor result }
    ensures accepts { B.accepts feed.now bus.new }
    ensures room { B.room bus.old ≤ B.room bus.new + clocks }
{
    let mut seen = Seen::new();
    go_on(start, sequence, &mut seen, bus, feed, clocks);
    stand(start, sequence, seen.bytes())
}

/// Goes on from a place in a sequence that began with these registers: its next `clocks` accesses,
/// or all that are left where there are fewer. The answer is the processor after them, and their
/// number.
pub(crate) fn resume<B: Bus>(
    start: Registers,
    mid: &Mid,
    bus: &mut B,
    feed: &B::Feed,
    clocks: u8,
) -> (CpuState, u8)
    requires place { IsPlace start mid.now }
    requires some { 1 ≤ clocks }
    requires accepts { B.accepts feed.now bus.old }
    requires room { clocks ≤ B.room bus.old }
    ensures advances { Advances (B.step feed.now) start mid.now.sequence (given_by mid.now) clocks result.1 bus.old bus.new result.0 }
    ensures running { result.0.jam ≡ None }
    ensures processor { IsProcessor result.0 }
    ensures accepts { B.accepts feed.now bus.new }
    ensures room { B.room bus.old ≤ B.room bus.new + result.1 }
{
    let mut seen = Seen::of(mid);
    let made = go_on(start, mid.sequence, &mut seen, bus, feed, clocks);
    (stand(start, mid.sequence, seen.bytes()), made)
}
