ghost use Rattle.std.specs.Prelude.{◌≡◌, ◌<◌};
ghost use Rattle.avg_device.specs.Tick.{high_read, low_read, next_word, second_high_read, second_low_read};

use board_base::phase::{EXECUTE, HIGH_BYTE, LOW_BYTE, SECOND_HIGH, SECOND_LOW};
use board_base::{VectorMemory, VgState};

/// The number of words.
const WORDS: u16 = 8192;

/// A high byte below this one is that of a long vector, which has a second word.
pub(crate) const LONG_HIGH_BELOW: u8 = 32;

/// The address of the next word.
pub(crate) fn following(pc: u16) -> u16
    requires { pc < 8192 }
    ensures value { result ≡ next_word pc }
    ensures bound { result < 8192 }
{
    (pc + 1) % WORDS
}

/// Phase 0: reads the low byte of a word.
#[tactic(auto, unfolding(crate::specs::Tick::low_read))]
pub(crate) fn read_low(state: &mut VgState, memory: &VectorMemory)
    requires { state.old.phase ≡ LOW_BYTE }
    ensures { state.new ≡ low_read memory.now state.old }
{
    state.bytes[0] = memory.byte(2 * state.pc);
    state.phase = HIGH_BYTE;
}

/// Phase 1: reads the high byte of a word.
#[tactic(auto, unfolding(crate::specs::Tick::high_read))]
pub(crate) fn read_high(state: &mut VgState, memory: &VectorMemory)
    requires { state.old.phase ≡ HIGH_BYTE }
    ensures { state.new ≡ high_read memory.now state.old }
{
    let high = memory.byte(2 * state.pc + 1);
    state.bytes[1] = high;
    state.pc = following(state.pc);
    state.phase = if high < LONG_HIGH_BELOW {
        SECOND_LOW
    } else {
        EXECUTE
    };
}

/// Phase 2: reads the low byte of a second word.
#[tactic(auto, unfolding(crate::specs::Tick::second_low_read))]
pub(crate) fn read_second_low(state: &mut VgState, memory: &VectorMemory)
    requires { state.old.phase ≡ SECOND_LOW }
    ensures { state.new ≡ second_low_read memory.now state.old }
{
    state.bytes[2] = memory.byte(2 * state.pc);
    state.phase = SECOND_HIGH;
}

/// Phase 3: reads the high byte of a second word.
#[tactic(auto, unfolding(crate::specs::Tick::second_high_read))]
pub(crate) fn read_second_high(state: &mut VgState, memory: &VectorMemory)
    requires { state.old.phase ≡ SECOND_HIGH }
    ensures { state.new ≡ second_high_read memory.now state.old }
{
    state.bytes[3] = memory.byte(2 * state.pc + 1);
    state.pc = following(state.pc);
    state.phase = EXECUTE;
}
