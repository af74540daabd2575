ghost use Rattle.std.specs.Prelude.{[], ⊤, refl};

use crate::record_observer::RecordObserver;
use board_base::Trails;
use outside_io::{Sink, SinkFault};

/// An observer that writes nothing and keeps nothing: for a run of which only the board is wanted.
#[derive(Clone, Copy, Debug, PartialEq, Eq)]
pub struct NullObserver;

impl RecordObserver for NullObserver {
    ghost can_take = { λ _ _ _ _. ⊤ };

    ghost writes = { λ _ _ _. [] };

    ghost next = { λ w _ _. w };

    ghost in_parts = { λ w from first at rest upto parts room. record { room_first = tt; room_rest = tt; text = refl; state = refl } };

    fn take<O: Sink>(
        &mut self,
        _trails: &Trails<'_>,
        _upto: u64,
        _out: &mut O,
    ) -> Result<(), SinkFault> {
        Ok(())
    }
}
