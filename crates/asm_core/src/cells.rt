ghost use Rattle.std.specs.Prelude.{◌≡◌};
ghost use Rattle.asm_core.specs.StoredCells.{stored_cells};

use crate::long_list::LongList;
use crate::{Cell, List};
use std::alloc::Global;
use std::marker::Model;

/// The cells of a statement that gives bytes, in their order.
#[derive(Drop)]
pub struct Cells<'a> {
    stored: Stored<'a>,
}

/// How the cells of a statement are kept.
#[derive(Drop)]
pub(crate) enum Stored<'a> {
    /// Each cell in memory.
    Each(List<Cell<'a>>),
    /// The text of a list, which is too long for any ROM.
    Long(LongList<'a>),
}

impl<'a> Model for Cells<'a> {
    ghost use Rattle.std.specs.Prelude.{List};
    ghost use Rattle.asm_core.specs.declared.cell.Cell.{Cell};
    ghost use Rattle.asm_core.specs.StoredCells.{stored_cells};

    ghost Value = { List Cell };

    ghost view = { λ cells. stored_cells cells.stored };
}

impl<'a> Cells<'a> {
    ghost use Rattle.std.specs.Prelude.{◌≡◌, [], ◌∷◌};
    ghost use Rattle.asm_core.specs.StoredCells.{stored_cells};

    /// One cell.
    pub fn one(alloc: Global, cell: Cell<'a>) -> Cells<'a>
        ensures { result ≡ cell.entry ∷ [] }
    {
        Cells::each(List::one(alloc, cell))
    }

    /// These cells.
    pub(crate) fn each(cells: List<Cell<'a>>) -> Cells<'a>
        ensures { result ≡ cells.entry }
    {
        Cells {
            stored: Stored::Each(cells),
        }
    }

    /// The cells of a long list.
    pub(crate) fn long(list: LongList<'a>) -> Cells<'a>
        ensures { result ≡ list.entry }
    {
        Cells {
            stored: Stored::Long(list),
        }
    }

    /// How the cells are kept.
    pub(crate) fn stored(self) -> Stored<'a>
        ensures { stored_cells result ≡ self.entry }
    {
        self.stored
    }
}
