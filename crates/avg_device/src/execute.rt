ghost use Rattle.std.specs.Prelude.{◌≡◌, ◌<◌, ◌+◌, ◌%◌, slice_index, slice_set};
ghost use Rattle.avg_decode.specs.Word.{IsInRange, IsLong};
ghost use Rattle.avg_device.specs.Tick.{started, executed, word_executed, pen_of};

use avg_decode::{VgWord, second, word_kind};
use avg_draw::{delta, draw_clocks};
use board_base::VgState;
use board_base::phase::{DRAW, EXECUTE, LOW_BYTE};

/// How bright a vector is drawn, from the number in its word.
fn pen(z: u8, intensity: u8) -> u8
    requires z { z < 8 }
    requires intensity { intensity < 16 }
    ensures value { result ≡ pen_of z intensity }
    ensures bound { result < 16 }
{
    match z {
        0 => 0,
        1 => intensity,
        _ => 2 * z,
    }
}

/// Begins a vector.
#[tactic(auto, unfolding(crate::specs::Tick::started))]
fn begin(state: &mut VgState, dx: i16, dy: i16, z: u8)
    requires dx { IsLong dx }
    requires dy { IsLong dy }
    requires z { z < 8 }
    ensures { state.new ≡ started dx dy z state.old }
{
    state.phase = DRAW;
    state.dx = delta(dx, state.lin, state.bin);
    state.dy = delta(dy, state.lin, state.bin);
    state.left = draw_clocks(dx, dy, state.bin);
    state.pen = pen(z, state.intensity);
}

/// Keeps the address of the next word on the stack, and goes on at `to`.
fn call(state: &mut VgState, to: u16)
    requires { to < 8192 }
    ensures { state.new ≡ record state.old { stack = slice_set state.old.stack state.old.sp state.old.pc; sp = (state.old.sp + 1) % 4; pc = to } }
{
    state.stack[state.sp as usize] = state.pc;
    state.sp = (state.sp + 1) % 4;
    state.pc = to;
}

/// Goes on at the address that was kept last.
fn rtsl(state: &mut VgState)
    ensures { state.new ≡ record state.old { sp = (state.old.sp + 3) % 4; pc = slice_index state.old.stack ((state.old.sp + 3) % 4) } }
{
    state.sp = (state.sp + 3) % 4;
    state.pc = state.stack[state.sp as usize];
}

/// Does what a word says. A long vector has its `dx` and its `z` in `second`.
#[tactic(auto, unfolding(crate::specs::Tick::word_executed))]
#[inline(always)]
pub(crate) fn execute_word(state: &mut VgState, word: VgWord, second: (i16, u8))
    requires phase { state.old.phase ≡ LOW_BYTE }
    requires word { IsInRange word }
    requires dx { IsLong second.0 }
    requires z { second.1 < 8 }
    ensures { state.new ≡ word_executed word second state.old }
{
    match word {
        VgWord::Vctr { dy } => begin(state, second.0, dy, second.1),
        VgWord::Halt => state.halted = true,
        VgWord::Svec { dx, dy, z } => begin(state, dx, dy, z),
        VgWord::Stat { colour, intensity } => {
            state.colour = colour;
            state.intensity = intensity;
        }
        VgWord::Scal { bin, lin } => {
            state.bin = bin;
            state.lin = lin;
        }
        VgWord::Cntr => {
            state.x = 0;
            state.y = 0;
        }
        VgWord::Jsrl { to } => call(state, to),
        VgWord::Rtsl => rtsl(state),
        VgWord::Jmpl { to } => state.pc = to,
    }
}

/// Phase 4: does the word that was read.
#[tactic(auto, unfolding(crate::specs::Tick::executed))]
pub(crate) fn execute(state: &mut VgState)
    requires { state.old.phase ≡ EXECUTE }
    ensures { state.new ≡ executed state.old }
{
    let [low, high, second_low, second_high] = state.bytes;
    let word = word_kind(u16::from_le_bytes([low, high]));
    let second = second(u16::from_le_bytes([second_low, second_high]));
    state.bytes = [0; 4];
    state.phase = LOW_BYTE;
    execute_word(state, word, second);
}
