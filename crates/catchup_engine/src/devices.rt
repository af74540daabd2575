ghost use Rattle.std.specs.Prelude.{◌≡◌, ◌+◌};

use avg_device::{FastVg, VectorUnit};
use earom_cells::{CellUnit, Earom};
use irq_watchdog::{Divider, DividerUnit};
use pokey_chip::{FastPokey, SoundUnit};

/// The five devices of a board.
#[derive(Drop)]
pub struct Devices<V: VectorUnit, P: SoundUnit, C: CellUnit, D: DividerUnit> {
    pub vector: V,
    pub sound1: P,
    pub sound2: P,
    pub cells: C,
    pub divider: D,
}

/// The types of the devices of a board.
pub(crate) trait Units: Drop {
    type Vector: VectorUnit;

    type Sound: SoundUnit;

    type Cells: CellUnit;

    type Divider: DividerUnit;
}

impl<V: VectorUnit, P: SoundUnit, C: CellUnit, D: DividerUnit> Units for Devices<V, P, C, D> {
    type Vector = V;

    type Sound = P;

    type Cells = C;

    type Divider = D;
}

impl Devices<FastVg, FastPokey, Earom, Divider> {
    /// Those that move in large steps where there are two kinds, none of them called yet. They
    /// allocate nothing.
    pub fn fast() -> Devices<FastVg, FastPokey, Earom, Divider>
        ensures { result.vector.calls + result.sound1.calls + result.sound2.calls + result.cells.calls + result.divider.calls ≡ 0 }
    {
        Devices {
            vector: FastVg::new(),
            sound1: FastPokey::new(),
            sound2: FastPokey::new(),
            cells: Earom::new(),
            divider: Divider::new(),
        }
    }
}
