use crate::device::Moves;
use crate::tick::tick_into;
use board_base::{Device, PokeyState, Trail};

/// A POKEY that does each clock by itself.
pub type PlainPokey = Device<PokeyState, ByClocks>;

/// Clock by clock.
pub struct ByClocks;

impl Moves for ByClocks {
    #[tactic(auto, using(board_base::proofs::TickLaws::one_tick, crate::proofs::RecordLemmas::unchanged))]
    fn run(state: &mut PokeyState, from: u64, n: u64, trail: &mut Trail) {
        for i in 0..n {
            tick_into(state, from + i, trail);
        }
    }
}
