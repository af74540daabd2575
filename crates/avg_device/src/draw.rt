ghost use Rattle.std.specs.Prelude.{◌≡◌, ◌≤◌, ◌^◌, ◌==◌, [], if◌then◌else◌};
ghost use Rattle.board_base.specs.Ranges.{IsWithin};
ghost use Rattle.board_base.specs.Trail.{Extended};
ghost use Rattle.avg_device.specs.Tick.{beam_x, beam_y, drawn, ended, stroke_at, strokes_at};

use avg_draw::move_beam;
use board_base::phase::{DRAW, LOW_BYTE};
use board_base::{Record, Trail, VgState};

/// The beam after the vector under way.
#[tactic(auto, using(crate::proofs::ManyTicks::passed))]
fn beam_after(state: &VgState) -> (i32, i32)
    ensures x { result.0 ≡ beam_x state.now }
    ensures y { result.1 ≡ beam_y state.now }
    ensures x_within { IsWithin (2 ^ 30) result.0 }
    ensures y_within { IsWithin (2 ^ 30) result.1 }
{
    (move_beam(state.x, state.dx), move_beam(state.y, state.dy))
}

/// The stroke of a vector that ends in this clock with the beam there.
#[inline(always)]
#[tactic(auto, unfolding(crate::specs::Tick::stroke_at))]
fn stroke(state: &VgState, clock: u64, beam: (i32, i32)) -> Record
    requires x { beam.0 ≡ beam_x state.now }
    requires y { beam.1 ≡ beam_y state.now }
    ensures { result ≡ stroke_at clock state.now }
{
    let (x1, y1) = beam;
    Record::Stroke {
        clock,
        x0: state.x,
        y0: state.y,
        x1,
        y1,
        colour: state.colour,
        intensity: state.pen,
    }
}

/// Moves the beam by a vector that ends in this clock, and records its stroke where it is drawn at
/// all.
#[tactic(auto, using(crate::proofs::ManyTicks::passed, crate::proofs::ManyTicks::none), unfolding(crate::specs::Tick::ended, crate::specs::Tick::strokes_at))]
pub(crate) fn end(state: &mut VgState, clock: u64, trail: &mut Trail)
    requires { 1 ≤ trail.old.spare }
    ensures state { state.new ≡ ended state.old }
    ensures records { Extended trail.old trail.new (strokes_at clock state.old) }
{
    let beam = beam_after(state);
    if state.pen != 0 {
        trail.push(stroke(state, clock, beam));
    }
    (state.x, state.y) = beam;
    state.phase = LOW_BYTE;
    state.dx = 0;
    state.dy = 0;
    state.pen = 0;
    state.left = 0;
}

/// Phase 5: draws for one clock.
#[tactic(auto, using(crate::proofs::ManyTicks::none), unfolding(crate::specs::Tick::drawn))]
pub(crate) fn draw(state: &mut VgState, clock: u64, trail: &mut Trail)
    requires phase { state.old.phase ≡ DRAW }
    requires room { 1 ≤ trail.old.spare }
    ensures state { state.new ≡ drawn state.old }
    ensures records { Extended trail.old trail.new (if state.old.left == 1 then strokes_at clock state.old else []) }
{
    if state.left == 1 {
        end(state, clock, trail);
    } else {
        state.left -= 1;
    }
}
