ghost use Rattle.std.specs.Prelude.{◌≡◌, ◌≤◌, ◌<◌, ◌+◌, ◌/◌, min, false};
ghost use Rattle.board_base.specs.Ticks.{made, ticks};
ghost use Rattle.board_base.specs.Trail.{Extended};
ghost use Rattle.avg_device.specs.Leap.{drawn_for, long_done, memory_word, short_done, strokes_for};
ghost use Rattle.avg_device.specs.Tick.{high_byte, next_word, vg_gives, vg_tick};

use crate::draw::end;
use crate::execute::execute_word;
use crate::fetch::{LONG_HIGH_BELOW, following};
use crate::tick::tick;
use avg_decode::{second, word_kind};
use board_base::phase::{DRAW, LOW_BYTE};
use board_base::{CLOCK_END, Trail, VectorMemory, VgState};

/// A word below this one is that of a long vector, which has a second word.
const LONG_BELOW: u16 = LONG_HIGH_BELOW as u16 * 256;

/// The clocks in which a word is read and done.
const WORD_CLOCKS: u64 = 3;

/// The clocks in which a long vector is read, with its second word, and started.
const LONG_CLOCKS: u64 = 5;

/// The word at a word address.
fn word_at(memory: &VectorMemory, pc: u16) -> u16
    requires { pc < 8192 }
    ensures value { result ≡ memory_word memory.now pc }
    ensures high { result / 256 ≡ high_byte memory.now pc }
{
    u16::from_le_bytes([memory.byte(2 * pc), memory.byte(2 * pc + 1)])
}

/// Does a word that needs no second one.
#[tactic(auto, unfolding(crate::specs::Leap::short_done))]
fn do_short(state: &mut VgState, word: u16)
    requires { state.old.phase ≡ LOW_BYTE }
    ensures { state.new ≡ short_done word state.old }
{
    state.pc = following(state.pc);
    state.bytes = [0; 4];
    execute_word(state, word_kind(word), (0, 0));
}

/// Does a word with its second one.
#[tactic(auto, unfolding(crate::specs::Leap::long_done))]
fn do_long(state: &mut VgState, memory: &VectorMemory, word: u16)
    requires { state.old.phase ≡ LOW_BYTE }
    ensures { state.new ≡ long_done word (memory_word memory.now (next_word state.old.pc)) state.old }
{
    let second_pc = following(state.pc);
    let second = second(word_at(memory, second_pc));
    state.pc = following(second_pc);
    state.bytes = [0; 4];
    execute_word(state, word_kind(word), second);
}

/// Reads a word and does it, where its clocks are there, and else does one clock of it. Gives the
/// clocks done.
#[tactic(auto, using(crate::proofs::Leaps::words))]
#[inline(always)]
fn read_on(
    state: &mut VgState,
    memory: &VectorMemory,
    clock: u64,
    most: u64,
    trail: &mut Trail,
) -> u64
    requires running { state.old.halted ≡ false }
    requires phase { state.old.phase ≡ LOW_BYTE }
    requires some { 1 ≤ most }
    requires room { most ≤ trail.old.spare }
    ensures some { 1 ≤ result }
    ensures within { result ≤ most }
    ensures state { state.new ≡ ticks (vg_tick memory.now) clock result state.old }
    ensures records { Extended trail.old trail.new (made (vg_tick memory.now) vg_gives clock result state.old) }
{
    let word = word_at(memory, state.pc);
    if word < LONG_BELOW && most >= LONG_CLOCKS {
        do_long(state, memory, word);
        LONG_CLOCKS
    } else if word >= LONG_BELOW && most >= WORD_CLOCKS {
        do_short(state, word);
        WORD_CLOCKS
    } else {
        tick(state, memory, clock, trail);
        1
    }
}

/// Draws to the end, or for the clocks that there are. Gives the clocks done.
#[tactic(auto, using(crate::proofs::ManyTicks::none), unfolding(crate::specs::Leap::drawn_for, crate::specs::Leap::strokes_for))]
fn draw_on(state: &mut VgState, clock: u64, most: u64, trail: &mut Trail) -> u64
    requires phase { state.old.phase ≡ DRAW }
    requires some { 1 ≤ most }
    requires room { most ≤ trail.old.spare }
    requires clocks { clock + most ≤ CLOCK_END }
    ensures clocks { result ≡ min state.old.left most }
    ensures some { 1 ≤ result }
    ensures state { state.new ≡ drawn_for result state.old }
    ensures records { Extended trail.old trail.new (strokes_for clock result state.old) }
{
    let left = u64::from(state.left);
    if most < left {
        state.left -= most as u16;
        return most;
    }
    end(state, clock + (left - 1), trail);
    left
}

/// Draws on, and where the draw ends reads on. Gives the clocks done.
fn draw_and_read(
    state: &mut VgState,
    memory: &VectorMemory,
    clock: u64,
    most: u64,
    trail: &mut Trail,
) -> u64
    requires running { state.old.halted ≡ false }
    requires phase { state.old.phase ≡ DRAW }
    requires some { 1 ≤ most }
    requires room { most ≤ trail.old.spare }
    requires clocks { clock + most ≤ CLOCK_END }
    ensures some { 1 ≤ result }
    ensures within { result ≤ most }
    ensures state { state.new ≡ ticks (vg_tick memory.now) clock result state.old }
    ensures records { Extended trail.old trail.new (made (vg_tick memory.now) vg_gives clock result state.old) }
{
    let drawn = draw_on(state, clock, most, trail);
    if drawn == most {
        return most;
    }
    drawn + read_on(state, memory, clock + drawn, most - drawn, trail)
}

/// Does the next clocks that go together, at most `most` of them: a whole halt, the rest of a draw
/// with the word after it, a whole word, or else one clock. Gives the clocks done.
#[tactic(auto, using(crate::proofs::Leaps::leaps))]
pub(crate) fn leap(
    state: &mut VgState,
    memory: &VectorMemory,
    clock: u64,
    most: u64,
    trail: &mut Trail,
) -> u64
    requires some { 1 ≤ most }
    requires room { most ≤ trail.old.spare }
    requires clocks { clock + most ≤ CLOCK_END }
    ensures some { 1 ≤ result }
    ensures within { result ≤ most }
    ensures state { state.new ≡ ticks (vg_tick memory.now) clock result state.old }
    ensures records { Extended trail.old trail.new (made (vg_tick memory.now) vg_gives clock result state.old) }
{
    if state.halted {
        return most;
    }
    match state.phase {
        LOW_BYTE => read_on(state, memory, clock, most, trail),
        DRAW => draw_and_read(state, memory, clock, most, trail),
        _ => {
            tick(state, memory, clock, trail);
            1
        }
    }
}
