ghost use Rattle.std.specs.Prelude.{◌≡◌, replicate, pos};
ghost use Rattle.avg_device.specs.Tick.{vg_go, vg_reset};

use board_base::VgState;
use board_base::phase::LOW_BYTE;

/// Forgets the word and the vector under way.
fn clear_word(state: &mut VgState)
    ensures { state.new ≡ record state.old { phase = LOW_BYTE; bytes = replicate 4 0; dx = pos 0; dy = pos 0; pen = 0; left = 0 } }
{
    *state = VgState {
        phase: LOW_BYTE,
        bytes: [0; 4],
        dx: 0,
        dy: 0,
        pen: 0,
        left: 0,
        ..*state
    };
}

/// Begins at the first word.
#[tactic(auto, unfolding(crate::specs::Tick::vg_go))]
pub(crate) fn go(state: &mut VgState)
    ensures { state.new ≡ vg_go state.old }
{
    clear_word(state);
    state.halted = false;
    state.pc = 0;
    state.sp = 0;
}

/// Halts.
#[tactic(auto, unfolding(crate::specs::Tick::vg_reset))]
pub(crate) fn reset(state: &mut VgState)
    ensures { state.new ≡ vg_reset state.old }
{
    clear_word(state);
    state.halted = true;
}
