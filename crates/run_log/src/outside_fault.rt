ghost use Rattle.std.specs.Prelude.{◌≡◌};
ghost use Rattle.run_log.specs.declared.outside_fault.OutsideFault.TheVariants.{Out, Shelf};

use outside_io::{Failed, SinkFault};

/// The I/O that failed, where a run couldn't go on.
#[derive(Clone, Copy, Debug, PartialEq, Eq)]
pub enum OutsideFault {
    /// A call of the shelf.
    Shelf,
    /// A write to the output.
    Out,
}

impl From<SinkFault> for OutsideFault {
    ghost from_gives = { λ _ fault. fault ≡ Out };

    fn from(_fault: SinkFault) -> OutsideFault {
        OutsideFault::Out
    }
}

impl From<Failed> for OutsideFault {
    ghost from_gives = { λ _ fault. fault ≡ Shelf };

    fn from(_failed: Failed) -> OutsideFault {
        OutsideFault::Shelf
    }
}
