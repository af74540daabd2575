ghost use Rattle.std.specs.Prelude.{◌≡◌, ◌≤◌};
ghost use Rattle.board_base.specs.Trail.{Extended};
ghost use Rattle.avg_device.specs.Tick.{vg_gives, vg_tick};

use crate::draw::draw;
use crate::execute::execute;
use crate::fetch::{read_high, read_low, read_second_high, read_second_low};
use board_base::phase::{EXECUTE, HIGH_BYTE, LOW_BYTE, SECOND_HIGH, SECOND_LOW};
use board_base::{Trail, VectorMemory, VgState};

/// Does one clock.
#[tactic(auto, using(crate::proofs::ManyTicks::none), unfolding(crate::specs::Tick::vg_tick, crate::specs::Tick::phase_done, crate::specs::Tick::vg_gives))]
pub(crate) fn tick(state: &mut VgState, memory: &VectorMemory, clock: u64, trail: &mut Trail)
    requires { 1 ≤ trail.old.spare }
    ensures state { state.new ≡ vg_tick memory.now clock state.old }
    ensures records { Extended trail.old trail.new (vg_gives clock state.old) }
{
    if state.halted {
        return;
    }
    match state.phase {
        LOW_BYTE => read_low(state, memory),
        HIGH_BYTE => read_high(state, memory),
        SECOND_LOW => read_second_low(state, memory),
        SECOND_HIGH => read_second_high(state, memory),
        EXECUTE => execute(state),
        _ => draw(state, clock, trail),
    }
}
