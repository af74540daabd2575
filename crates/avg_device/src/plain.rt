use crate::device::Moves;
use crate::tick::tick;
use board_base::{Device, Trail, VectorMemory, VgState};

/// A vector generator that moves clock by clock.
pub type PlainVg = Device<VgState, ByClocks>;

/// Clock by clock.
pub struct ByClocks;

impl Moves for ByClocks {
    #[tactic(auto, using(crate::proofs::ManyTicks::start))]
    fn run(state: &mut VgState, memory: &VectorMemory, from: u64, n: u64, trail: &mut Trail) {
        for done in 0..n {
            tick(state, memory, from + done, trail);
        }
    }
}
