use crate::device::Moves;
use crate::leap::leap;
use board_base::{Device, Trail, VectorMemory, VgState};

/// A vector generator that moves by whole words, whole draws and whole halts. It gives the same
/// states and strokes as one that moves clock by clock.
pub type FastVg = Device<VgState, ByWords>;

/// As many clocks at a time as go together.
pub struct ByWords;

impl Moves for ByWords {
    #[tactic(auto, using(crate::proofs::ManyTicks::start))]
    fn run(state: &mut VgState, memory: &VectorMemory, from: u64, n: u64, trail: &mut Trail) {
        let mut done = 0;
        while done < n {
            done += leap(state, memory, from + done, n - done, trail);
        }
    }
}
