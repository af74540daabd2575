//! What a session looks at between two turns.
ghost use Rattle.std.specs.Prelude.{◌≡◌, ℕ, ◌==◌, List, find, map, true, unwrap_or};
ghost use Rattle.lockstep_board.specs.Lockstep as lockstep;
ghost use Rattle.catchup_engine.specs.StopConditions.{has_changed};
ghost use Rattle.run_windows.specs.SyncedMachine.{value_of};
ghost use Rattle.board_debug.specs.Looks.{IsBefore, break_look, conditions_of, jam_look, look_after, look_before, look_until, vg_look, watch_look, watched, watched_byte};

use crate::stop_reason::StopReason;
use arrayvec::ArrayVec;
use catchup_engine::{Machine, StopConditions, WatchedByte};
use debug_script::{Breakpoints, STOPS};
use run_windows::SyncedMachine;

/// Whether the board is jammed.
fn look_at_jam<M: Machine>(synced: &SyncedMachine<'_, M>) -> Option<StopReason>
    ensures { result ≡ jam_look (value_of synced.now).board }
{
    match synced.machine().cpu().jam {
        Some(opcode) => Some(StopReason::Jam(opcode)),
        None => None,
    }
}

/// Whether the board is jammed, or else the tape has ended.
pub fn look_before<M: Machine>(synced: &SyncedMachine<'_, M>, end: u64) -> Option<StopReason>
    ensures { result ≡ look_before end (value_of synced.now).board }
{
    match look_at_jam(synced) {
        Some(found) => Some(found),
        None if end <= synced.machine().clock() => Some(StopReason::End),
        None => None,
    }
}

/// The same, and then whether a clock has come.
pub fn look_until<M: Machine>(
    synced: &SyncedMachine<'_, M>,
    end: u64,
    clock: u64,
) -> Option<StopReason>
    ensures { result ≡ look_until end clock (value_of synced.now).board }
{
    match look_before(synced, end) {
        Some(found) => Some(found),
        None if clock <= synced.machine().clock() => Some(StopReason::Until),
        None => None,
    }
}

/// How turns that are all made have ended: with a jam, or else as asked.
pub fn look_at_last<M: Machine>(synced: &SyncedMachine<'_, M>) -> StopReason
    ensures { result ≡ unwrap_or (jam_look (value_of synced.now).board) StopReason.Step }
{
    look_at_jam(synced).unwrap_or(StopReason::Step)
}

/// The first of some addresses that is this one.
fn first_at(addresses: &[u16], pc: u16) -> Option<u16>
    ensures { result ≡ find (λ address. address == pc) addresses.now }
{
    addresses.iter().copied().find(|address| *address == pc)
}

/// Whether pc is one of these.
fn look_at_breaks<M: Machine>(synced: &SyncedMachine<'_, M>, breaks: &[u16]) -> Option<StopReason>
    ensures { result ≡ break_look breaks.now (value_of synced.now).board }
{
    match first_at(breaks, synced.machine().cpu().pc) {
        Some(address) => Some(StopReason::Break(address)),
        None => None,
    }
}

/// A byte of the RAM or of the vector RAM.
fn watched_byte<M: Machine>(synced: &SyncedMachine<'_, M>, address: u16) -> u8
    ensures { result ≡ watched_byte (value_of synced.now).board address }
{
    synced.machine().byte_at(address).unwrap_or(0)
}

/// What a look after turns compares with: the watched bytes before them, and whether the generator
/// was halted.
#[derive(Drop)]
pub struct Before {
    bytes: ArrayVec<WatchedByte, STOPS>,
    halted: bool,
}

impl Before {
    /// Looks at a board before turns.
    pub fn of<M: Machine>(synced: &SyncedMachine<'_, M>, stops: &Breakpoints) -> Before
        ensures { IsBefore stops.now (value_of synced.now).board result }
    {
        let mut bytes = ArrayVec::new();
        'watches: for address in stops.watches() {
            bytes.push(WatchedByte {
                address: *address,
                value: watched_byte(synced, *address),
            });
        }
        Before {
            bytes,
            halted: synced.machine().is_halted(),
        }
    }

    /// Where turns from that board stop, beside a jam and the tape's END.
    pub fn conditions<'a>(&'a self, stops: &'a Breakpoints) -> StopConditions<'a>
        ensures { (b : lockstep.Board) → IsBefore stops.now b self.now → result ≡ conditions_of stops.now b }
    {
        let halted = if stops.vg() { Some(self.halted) } else { None };
        StopConditions::new(stops.breaks(), self.bytes.as_slice(), halted)
    }

    /// The first watched byte that has changed since.
    fn changed<M: Machine>(&self, synced: &SyncedMachine<'_, M>) -> Option<WatchedByte>
        ensures { result ≡ find (has_changed (value_of synced.now).board.peripherals) self.now.bytes.items }
    {
        self.bytes
            .iter()
            .copied()
            .find(|byte| watched_byte(synced, byte.address) != byte.value)
    }

    /// Whether a watched byte has changed since.
    fn look_at_watches<M: Machine>(&self, synced: &SyncedMachine<'_, M>) -> Option<StopReason>
        ensures { (before : lockstep.Board) → (watches : List ℕ) → self.now.bytes.items ≡ map (watched before) watches
            → result ≡ watch_look watches before (value_of synced.now).board }
    {
        match self.changed(synced) {
            Some(byte) => Some(StopReason::Watch(byte.address)),
            None => None,
        }
    }

    /// Whether the generator has halted since.
    fn look_at_vg<M: Machine>(&self, synced: &SyncedMachine<'_, M>) -> Option<StopReason>
        ensures { (before : lockstep.Board) → self.now.halted ≡ before.peripherals.vg.halted → result ≡ vg_look true before (value_of synced.now).board }
    {
        if synced.machine().is_halted() && !self.halted {
            Some(StopReason::Vg)
        } else {
            None
        }
    }
}

/// What `go` looks at after turns, in order: a jam, the tape's END, the breaks, the watches, and
/// the generator.
pub fn look_after<M: Machine>(
    synced: &SyncedMachine<'_, M>,
    end: u64,
    stops: &Breakpoints,
    before: &Before,
) -> Option<StopReason>
    ensures { (b : lockstep.Board) → IsBefore stops.now b before.now → result ≡ look_after end stops.now b (value_of synced.now).board }
{
    if let Some(found) = look_before(synced, end) {
        return Some(found);
    }
    if let Some(found) = look_at_breaks(synced, stops.breaks()) {
        return Some(found);
    }
    if let Some(found) = before.look_at_watches(synced) {
        return Some(found);
    }
    if stops.vg() {
        before.look_at_vg(synced)
    } else {
        None
    }
}
