//! A stretch of a run, as a function of bytes.
ghost use Rattle.std.specs.Prelude.{◌≡◌, ◌≤◌, length, IfOk, IfErr};
ghost use Rattle.board_base.specs.Board.{board_at_power_on};
ghost use Rattle.run_windows.specs.Windows.{clock_in};
ghost use Rattle.cpu_core.specs.Places.{IsProcessor};
ghost use Rattle.save_state.specs.StateBytes.{state_bytes};
ghost use Rattle.sound_pcm.specs.declared.mixer.TheConstants.{MAX_PER};
ghost use Rattle.run_stretch.specs.Stretches.{Comes, IsAdvanced, IsRecorded, IsSampled};

use crate::ended::{Stretch, ended};
use crate::fault::StretchFault;
use crate::parts::{Parts, Start, read_parts};
use crate::watching::watch_within;
use board_base::{BoardState, CLOCK_LIMIT};
use catchup_engine::{Devices, Engine};
use run_log::{LogWriter, RecordWriter};
use run_samples::Sampler;
use run_windows::{SyncedMachine, Until};
use save_state::STATE_LEN;
use std::alloc::Global;

/// The board at power-on, as bytes of a saved board.
pub fn power_on() -> [u8; STATE_LEN]
    ensures { result ≡ state_bytes board_at_power_on }
{
    let mut bytes = [0; STATE_LEN];
    save_state::write(&BoardState::power_on(), &mut bytes);
    bytes
}

/// Runs a stretch, and returns the lines of its records.
fn advance_parts(
    alloc: Global,
    parts: &Parts,
    timers: bool,
    until: Until,
    room: usize,
) -> Result<Stretch, StretchFault>
    requires place { IsProcessor parts.now.board.cpu }
    requires limit { clock_in until ≤ CLOCK_LIMIT }
    ensures done { IfOk result (λ s. IsAdvanced room timers until parts.now s) }
    ensures fits { IfOk result (λ s. length s.output.items ≤ s.wanted) }
    ensures memory { IfErr result (λ fault. fault ≡ StretchFault.NoMemory) }
{
    let Ok(mut engine) = Engine::new(alloc, &parts.image, &parts.board, Devices::fast(), timers)
    else {
        return Err(StretchFault::NoMemory);
    };
    let mut synced = SyncedMachine::of(&mut engine);
    match watch_within(alloc, &mut synced, &parts.tape, until, &mut LogWriter, room) {
        Ok(kept) => Ok(ended(&synced, kept)),
        Err(_) => Err(StretchFault::NoMemory),
    }
}

/// Runs an image with a tape from a saved board to a clock, or to the first boundary that isn't
/// before it. It returns the lines of the records on the way, as the log of `run` has them, without
/// a last line. Where they are more bytes than there is room for, it returns only how many they
/// are.
///
/// Entries of the tape whose clocks are done aren't applied, and its END is only a line. A board
/// that has come so far stays as it is, and a jammed one too.
pub fn advance(
    alloc: Global,
    start: Start<'_>,
    until: Until,
    room: usize,
) -> Result<Stretch, StretchFault>
    requires limit { clock_in until ≤ CLOCK_LIMIT }
    ensures comes { Comes start.entry.image.now start.entry.board.now start.entry.tape.now (IsAdvanced room start.entry.timers until) result }
    ensures fits { IfOk result (λ s. length s.output.items ≤ s.wanted) }
{
    let parts = read_parts(alloc, start)?;
    advance_parts(alloc, &parts, start.timers, until, room)
}

/// Runs a stretch, and returns its records as bytes.
fn record_parts(
    alloc: Global,
    parts: &Parts,
    timers: bool,
    until: Until,
    room: usize,
) -> Result<Stretch, StretchFault>
    requires place { IsProcessor parts.now.board.cpu }
    requires limit { clock_in until ≤ CLOCK_LIMIT }
    ensures done { IfOk result (λ s. IsRecorded room timers until parts.now s) }
    ensures fits { IfOk result (λ s. length s.output.items ≤ s.wanted) }
    ensures memory { IfErr result (λ fault. fault ≡ StretchFault.NoMemory) }
{
    let Ok(mut engine) = Engine::new(alloc, &parts.image, &parts.board, Devices::fast(), timers)
    else {
        return Err(StretchFault::NoMemory);
    };
    let mut synced = SyncedMachine::of(&mut engine);
    match watch_within(
        alloc,
        &mut synced,
        &parts.tape,
        until,
        &mut RecordWriter,
        room,
    ) {
        Ok(kept) => Ok(ended(&synced, kept)),
        Err(_) => Err(StretchFault::NoMemory),
    }
}

/// Runs an image with a tape as `advance` does, and returns the records on the way as bytes, 40 of
/// each: those that `advance` returns as lines, in the same order.
pub fn records(
    alloc: Global,
    start: Start<'_>,
    until: Until,
    room: usize,
) -> Result<Stretch, StretchFault>
    requires limit { clock_in until ≤ CLOCK_LIMIT }
    ensures comes { Comes start.entry.image.now start.entry.board.now start.entry.tape.now (IsRecorded room start.entry.timers until) result }
    ensures fits { IfOk result (λ s. length s.output.items ≤ s.wanted) }
{
    let parts = read_parts(alloc, start)?;
    record_parts(alloc, &parts, start.timers, until, room)
}

/// Runs a stretch, and returns its samples.
fn sample_parts(
    alloc: Global,
    parts: &Parts,
    timers: bool,
    limit: u64,
    per: u32,
    room: usize,
) -> Result<Stretch, StretchFault>
    requires place { IsProcessor parts.now.board.cpu }
    requires limit { limit ≤ CLOCK_LIMIT }
    requires some { 1 ≤ per }
    requires longest { per ≤ MAX_PER }
    ensures done { IfOk result (λ s. IsSampled room timers limit per parts.now s) }
    ensures fits { IfOk result (λ s. length s.output.items ≤ s.wanted) }
    ensures memory { IfErr result (λ fault. fault ≡ StretchFault.NoMemory) }
{
    let Ok(mut engine) = Engine::new(alloc, &parts.image, &parts.board, Devices::fast(), timers)
    else {
        return Err(StretchFault::NoMemory);
    };
    let mut synced = SyncedMachine::of(&mut engine);
    let mut sampler = Sampler::of(&synced, per);
    let until = Until::Boundary(limit);
    match watch_within(alloc, &mut synced, &parts.tape, until, &mut sampler, room) {
        Ok(kept) => Ok(ended(&synced, kept)),
        Err(_) => Err(StretchFault::NoMemory),
    }
}

/// Runs an image with a tape from a saved board to the first boundary that isn't before a clock. It
/// returns a sample for each `per` clocks, 1 to 65,535: the sum of both POKEYs' eight levels over
/// them, as four bytes, the lowest first. Clocks at the end that are no whole group give none.
/// Where the samples are more bytes than there is room for, it returns only how many they are.
pub fn sample(
    alloc: Global,
    start: Start<'_>,
    limit: u64,
    per: u32,
    room: usize,
) -> Result<Stretch, StretchFault>
    requires limit { limit ≤ CLOCK_LIMIT }
    requires some { 1 ≤ per }
    requires longest { per ≤ MAX_PER }
    ensures comes { Comes start.entry.image.now start.entry.board.now start.entry.tape.now (IsSampled room start.entry.timers limit per) result }
    ensures fits { IfOk result (λ s. length s.output.items ≤ s.wanted) }
{
    let parts = read_parts(alloc, start)?;
    sample_parts(alloc, &parts, start.timers, limit, per, room)
}
