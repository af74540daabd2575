//! A clock of a run, sought among the boards that are kept along it.
ghost use Rattle.std.specs.Prelude.{◌≡◌, ◌<◌, ◌≤◌, ◌+◌, ◌-◌, ◌^◌, false, min, All, IfSome, List, [], None, length, get_or};
ghost use Rattle.cpu_core.specs.Places.{IsMiddle};
ghost use Rattle.cpu_table.specs.Opcodes.{row_of};
ghost use Rattle.tape_ports.specs.declared.entry.TapeEntry.{TapeEntry};
ghost use Rattle.lockstep_board.specs.Order.{HasNoRecords, cleared};
ghost use Rattle.lockstep_board.specs.Lockstep.{Board};
ghost use Rattle.lockstep_board.specs.Run.{is_at, to_clock};
ghost use Rattle.run_windows.specs.SyncedMachine.{loan_of, value_of};
ghost use Rattle.keyframes.specs.Keys.{HaveRisingClocks, IsNearest, Keyframe, is_crowded, last_of};
ghost use Rattle.keyframes.specs.Seeking.{AddsBoard, Along, CanBeLoaded, IsOnRun, over_image, run_start};

use crate::keyframes::Keyframes;
use avg_device::VectorUnit;
use board_base::{BoardState, CLOCK_LIMIT};
use catchup_engine::{Engine, Machine};
use earom_cells::CellUnit;
use irq_watchdog::DividerUnit;
use pokey_chip::SoundUnit;
use run_windows::{NullObserver, NullSink, SyncedMachine, Until};
use tape_ports::Tape;

/// Keeps the board at which a run begins. No other is kept yet.
pub fn keep_start(keys: &mut Keyframes, state: &BoardState)
    requires none { keys.old.kept ≡ [] }
    requires undocumented { IfSome state.now.cpu.jam (λ o. row_of o ≡ None) }
    requires place { IfSome state.now.cpu.mid (λ _. IsMiddle state.now.cpu) }
    ensures start { (e : Board) → run_start keys.new.kept e ≡ over_image e state.now }
    ensures along { (entries : List TapeEntry) → (e : Board) → Along keys.new.kept entries (run_start keys.new.kept e) }
{
    // opens the model
    let _clock = state.clock;
    keys.keep(state);
}

/// The place of the last kept board at or below a clock, or of the first one where there is none.
fn start_index(keys: &Keyframes, clock: u64) -> u32
    requires some { 0 < length keys.now.kept }
    ensures within { result < length keys.now.kept }
    ensures rising { HaveRisingClocks keys.now.kept }
    ensures nearest { (d : Keyframe) → (get_or keys.now.kept result d).board.clock ≤ clock → IsNearest keys.now.kept clock result }
    ensures first { (d : Keyframe) → clock < (get_or keys.now.kept result d).board.clock → result ≡ 0 }
{
    match keys.nearest(clock) {
        Some(index) => index,
        None => 0,
    }
}

/// Takes on a kept board.
fn load_kept<M: Machine>(synced: &mut SyncedMachine<'_, M>, keys: &Keyframes, index: u32)
    requires within { index < length keys.now.kept }
    requires loadable { All (λ keyframe. CanBeLoaded keyframe.board) keys.now.kept }
    ensures loan { loan_of synced.new ≡ loan_of synced.old }
    ensures board { (d : Keyframe) → (value_of synced.new).board ≡ over_image (value_of synced.old).board (get_or keys.now.kept index d).board }
    ensures done { (value_of synced.new).done ≡ (value_of synced.old).done }
{
    let mut state = BoardState::power_on();
    keys.board(index, &mut state);
    synced.load(&state);
}

/// Runs to a clock, and forgets the records.
fn run_on<M: Machine>(synced: &mut SyncedMachine<'_, M>, tape: &Tape, clock: u64)
    requires limit { clock ≤ CLOCK_LIMIT }
    ensures loan { loan_of synced.new ≡ loan_of synced.old }
    ensures board { (value_of synced.new).board ≡ cleared (to_clock tape.now.entries clock (value_of synced.old).board) }
    ensures on_run { (b : Board) → IsOnRun tape.now.entries b (value_of synced.old).board → IsOnRun tape.now.entries b (value_of synced.new).board }
    ensures same { (kept : List Keyframe) → 0 < length kept → run_start kept (value_of synced.new).board ≡ run_start kept (value_of synced.old).board }
    ensures done { (value_of synced.new).done + (value_of synced.old).board.peripherals.clock ≤ (value_of synced.old).done + (value_of synced.new).board.peripherals.clock }
{
    let until = Until::Clock(clock);
    let Ok(_) = synced.watch(tape, until, &mut NullObserver, &mut NullSink) else {
        unreachable!();
    };
}

/// Whether a run to a clock is over: with a jam, and else at that clock.
fn is_reached<M: Machine>(synced: &SyncedMachine<'_, M>, clock: u64) -> bool
    ensures { result ≡ is_at clock (value_of synced.now).board }
{
    let machine = synced.machine();
    machine.cpu().jam.is_some() || clock <= machine.clock()
}

/// The clock at which the next board is due, `stride` clocks after the last kept one.
fn due_clock(keys: &Keyframes, stride: u64) -> u64
    requires some { 0 < length keys.now.kept }
    ensures { IfSome (last_of keys.now.kept) (λ last. result ≡ min (last.board.clock + stride) (2 ^ 64 - 1)) }
{
    let last = keys.clock_of(keys.len() - 1);
    last.saturating_add(stride)
}

/// Keeps the board of a machine that stands `stride` clocks or more after the last kept one.
fn keep_if_due<M: Machine>(synced: &SyncedMachine<'_, M>, keys: &mut Keyframes, stride: u64)
    requires some { 0 < length keys.old.kept }
    requires stride { 1 ≤ stride }
    ensures first { (e : Board) → run_start keys.new.kept e ≡ run_start keys.old.kept e }
    ensures along { (entries : List TapeEntry) → (b : Board) → Along keys.old.kept entries b → IsOnRun entries b (value_of synced.now).board → Along keys.new.kept entries b }
    ensures near { IfSome (last_of keys.new.kept) (λ last. (value_of synced.now).board.peripherals.clock < last.board.clock + stride) }
{
    let machine = synced.machine();
    let last = keys.clock_of(keys.len() - 1);
    if machine.clock().saturating_sub(last) >= stride {
        let mut state = BoardState::power_on();
        machine.state(&mut state);
        keys.keep(&state);
    }
}

/// Runs to a clock, and keeps a board each `stride` clocks after the last kept one.
fn run_keeping<M: Machine>(
    synced: &mut SyncedMachine<'_, M>,
    keys: &mut Keyframes,
    tape: &Tape,
    clock: u64,
    stride: u64,
)
    requires along { Along keys.old.kept tape.now.entries (run_start keys.old.kept (value_of synced.old).board) }
    requires on_run { IsOnRun tape.now.entries (run_start keys.old.kept (value_of synced.old).board) (value_of synced.old).board }
    requires limit { clock ≤ CLOCK_LIMIT }
    requires stride { 1 ≤ stride }
    ensures loan { loan_of synced.new ≡ loan_of synced.old }
    ensures board { (value_of synced.new).board ≡ cleared (to_clock tape.now.entries clock (value_of synced.old).board) }
    ensures same { run_start keys.new.kept (value_of synced.new).board ≡ run_start keys.old.kept (value_of synced.old).board }
    ensures along { Along keys.new.kept tape.now.entries (run_start keys.old.kept (value_of synced.old).board) }
    ensures done { (value_of synced.new).done + (value_of synced.old).board.peripherals.clock ≤ (value_of synced.old).done + (value_of synced.new).board.peripherals.clock }
    ensures near { IfSome (last_of keys.new.kept) (λ last. (value_of synced.new).board.peripherals.clock < last.board.clock + stride) }
{
    'strides: loop {
        let next = clock.min(due_clock(keys, stride));
        run_on(synced, tape, next);
        keep_if_due(synced, keys, stride);
        if is_reached(synced, clock) {
            return;
        }
    }
}

/// Brings a machine to the board of a run at a clock, which may be inside a sequence, and keeps no
/// board.
///
/// The run begins at the first kept board, and all kept boards lie along it. Below the clock of the
/// first one it is that board; from a jam on it is the jammed board. The machine goes on from the
/// last kept board at or below the clock. It takes no memory.
pub fn go_to<M: Machine>(
    synced: &mut SyncedMachine<'_, M>,
    keys: &Keyframes,
    tape: &Tape,
    clock: u64,
)
    requires along { Along keys.now.kept tape.now.entries (run_start keys.now.kept (value_of synced.old).board) }
    requires limit { clock ≤ CLOCK_LIMIT }
    ensures loan { loan_of synced.new ≡ loan_of synced.old }
    ensures board { (value_of synced.new).board ≡ cleared (to_clock tape.now.entries clock (run_start keys.now.kept (value_of synced.old).board)) }
    ensures on_run { IsOnRun tape.now.entries (run_start keys.now.kept (value_of synced.old).board) (value_of synced.new).board }
    ensures same { run_start keys.now.kept (value_of synced.new).board ≡ run_start keys.now.kept (value_of synced.old).board }
    ensures along { Along keys.now.kept tape.now.entries (run_start keys.now.kept (value_of synced.new).board) }
    ensures done { All (λ keyframe. keyframe.board.clock ≤ clock
        → (value_of synced.new).done + keyframe.board.clock ≤ (value_of synced.old).done + (value_of synced.new).board.peripherals.clock) keys.now.kept }
    ensures before { clock < (run_start keys.now.kept (value_of synced.old).board).peripherals.clock → (value_of synced.new).done ≤ (value_of synced.old).done }
{
    let nearest = start_index(keys, clock);
    load_kept(synced, keys, nearest);
    run_on(synced, tape, clock);
}

/// Keeps the board of a machine where its clock is past that of the last kept one. Where there is
/// no room more, every second kept board is dropped before.
pub fn keep_board<M: Machine>(synced: &SyncedMachine<'_, M>, keys: &mut Keyframes)
    requires some { 0 < length keys.old.kept }
    ensures first { (e : Board) → run_start keys.new.kept e ≡ run_start keys.old.kept e }
    ensures along { (entries : List TapeEntry) → (b : Board) → Along keys.old.kept entries b → IsOnRun entries b (value_of synced.now).board → Along keys.new.kept entries b }
    ensures roomy { is_crowded keys.old ≡ false → AddsBoard keys.old keys.new (value_of synced.now).board }
{
    let machine = synced.machine();
    let last = keys.clock_of(keys.len() - 1);
    if last < machine.clock() {
        let mut board = BoardState::power_on();
        machine.state(&mut board);
        keys.keep(&board);
    }
}

/// Brings a synchronised machine to the board of a run at a clock, and keeps boards on the way.
fn seek_synced<M: Machine>(
    synced: &mut SyncedMachine<'_, M>,
    keys: &mut Keyframes,
    tape: &Tape,
    clock: u64,
    stride: u64,
)
    requires along { Along keys.old.kept tape.now.entries (run_start keys.old.kept (value_of synced.old).board) }
    requires limit { clock ≤ CLOCK_LIMIT }
    requires stride { 1 ≤ stride }
    ensures loan { loan_of synced.new ≡ loan_of synced.old }
    ensures board { (value_of synced.new).board ≡ cleared (to_clock tape.now.entries clock (run_start keys.old.kept (value_of synced.old).board)) }
    ensures same { run_start keys.new.kept (value_of synced.new).board ≡ run_start keys.old.kept (value_of synced.old).board }
    ensures along { Along keys.new.kept tape.now.entries (run_start keys.new.kept (value_of synced.new).board) }
    ensures done { All (λ keyframe. keyframe.board.clock ≤ clock
        → (value_of synced.new).done + keyframe.board.clock ≤ (value_of synced.old).done + (value_of synced.new).board.peripherals.clock) keys.old.kept }
    ensures before { clock < (run_start keys.old.kept (value_of synced.old).board).peripherals.clock → (value_of synced.new).done ≤ (value_of synced.old).done }
    ensures near { IfSome (last_of keys.new.kept) (λ last. (value_of synced.new).board.peripherals.clock < last.board.clock + stride) }
{
    let index = start_index(keys, clock);
    load_kept(synced, keys, index);
    run_keeping(synced, keys, tape, clock, stride);
}

/// Brings an engine to the board of a run at a clock, which may be inside a sequence, and keeps
/// boards on the way.
///
/// The run begins at the first kept board, and all kept boards lie along it. Below the clock of the
/// first one it is that board; from a jam on it is the jammed board. The engine goes on from the
/// last kept board at or below the clock, and keeps a board each `stride` clocks after the last
/// kept one, which may be inside a sequence. It takes no memory: where there is no room more, every
/// second kept board is dropped.
pub fn seek<V: VectorUnit, P: SoundUnit, C: CellUnit, D: DividerUnit>(
    engine: &mut Engine<V, P, C, D>,
    keys: &mut Keyframes,
    tape: &Tape,
    clock: u64,
    stride: u64,
)
    requires settled { engine.old.lagging ≡ 0 }
    requires empty { HasNoRecords engine.old.board }
    requires along { Along keys.old.kept tape.now.entries (run_start keys.old.kept engine.old.board) }
    requires limit { clock ≤ CLOCK_LIMIT }
    requires stride { 1 ≤ stride }
    ensures settled { engine.new.lagging ≡ 0 }
    ensures empty { HasNoRecords engine.new.board }
    ensures board { engine.new.board ≡ cleared (to_clock tape.now.entries clock (run_start keys.old.kept engine.old.board)) }
    ensures same { run_start keys.new.kept engine.new.board ≡ run_start keys.old.kept engine.old.board }
    ensures along { Along keys.new.kept tape.now.entries (run_start keys.new.kept engine.new.board) }
    ensures done { All (λ keyframe. keyframe.board.clock ≤ clock
        → engine.new.done + keyframe.board.clock ≤ engine.old.done + engine.new.board.peripherals.clock) keys.old.kept }
    ensures before { clock < (run_start keys.old.kept engine.old.board).peripherals.clock → engine.new.done ≤ engine.old.done }
    ensures near { IfSome (last_of keys.new.kept) (λ last. engine.new.board.peripherals.clock < last.board.clock + stride) }
{
    seek_synced(&mut SyncedMachine::of(engine), keys, tape, clock, stride);
}
