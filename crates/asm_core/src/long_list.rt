ghost use Rattle.std.specs.Prelude.{◌≡◌, IfOk, true};
ghost use Rattle.std.specs.Option.{option_map_or};
ghost use Rattle.asm_core.specs.Cells.{all_fine, is_fine};
ghost use Rattle.asm_core.specs.Expressions.{expression_of};
ghost use Rattle.asm_core.specs.Lists.{value_field};

use crate::cell::is_fine;
use crate::{Field, Names, Place, Words, read_expression, split_item};
use board_base::OutOfMemory;
use std::alloc::Global;
use std::marker::Model;

/// A list of expressions that gives more bytes than the largest ROM has. Only its text is kept, and
/// its items are read from it as they are wanted.
#[derive(Drop)]
pub struct LongList<'a> {
    alloc: Global,
    words: Words<'a>,
    place: Place,
    size: u8,
}

impl<'a> Model for LongList<'a> {
    ghost use Rattle.std.specs.Prelude.{List};
    ghost use Rattle.asm_core.specs.declared.cell.Cell.{Cell};
    ghost use Rattle.asm_core.specs.Lists.{IsLong, list_cells};
    ghost use Rattle.asm_core.specs.Words.{items_of};

    ghost Value = { List Cell };

    ghost view = { λ list. list_cells list.place list.size (items_of list.words) };

    ghost invariant = { λ list. IsLong list.place list.size (items_of list.words) };
}

/// Whether an item's value is in the range of its place, or isn't known.
fn item_fine(alloc: Global, names: &Names, place: Place, item: &Words) -> Result<bool, OutOfMemory>
    ensures { IfOk result (λ fine. fine ≡ option_map_or (λ e. is_fine names.now (value_field place e)) (expression_of item.now) true) }
{
    let Some(expression) = read_expression(alloc, item)? else {
        return Ok(true);
    };
    let field = Field {
        expression,
        origin: 0,
        place,
    };
    Ok(is_fine(names, &field))
}

impl<'a> LongList<'a> {
    ghost use Rattle.std.specs.Prelude.{◌≡◌, ◌<◌, IfOk};
    ghost use Rattle.rom_image.specs.declared.image.TheConstants.{PROGRAM_ROM_LEN};
    ghost use Rattle.asm_core.specs.Cells.{all_fine, size_of};
    ghost use Rattle.asm_core.specs.Lists.{IsLong, list_cells};
    ghost use Rattle.asm_core.specs.Words.{items_of};

    /// The list of these words, where an item gives so many bytes.
    pub(crate) fn new(alloc: Global, words: &Words<'a>, place: Place, size: u8) -> LongList<'a>
        requires { IsLong place size (items_of words.now) }
        ensures { result ≡ list_cells place size (items_of words.now) }
    {
        LongList {
            alloc,
            words: words.copied(),
            place,
            size,
        }
    }

    /// A long list gives more bytes than the largest ROM has. It states a law, and does nothing.
    #[tactic(auto, using(crate::proofs::LongItems::lengths))]
    pub(crate) fn lemma_long(&self)
        ensures { PROGRAM_ROM_LEN < size_of self.now }
    {
        let _size = self.size;
    }

    /// Whether all items' values are in the range of their place, or aren't known.
    #[tactic(auto, using(crate::proofs::Lists::steps), unfolding(crate::specs::Lists::cells_of))]
    pub(crate) fn all_fine(&self, names: &Names) -> Result<bool, OutOfMemory>
        ensures { IfOk result (λ fine. fine ≡ all_fine names.now self.now) }
    {
        let mut list = Some(self.words.copied());
        'items: while let Some(rest) = list {
            let (item, after) = split_item(&rest);
            let fine = item_fine(self.alloc, names, self.place, &item)?;
            if !fine {
                return Ok(false);
            }
            list = after;
        }
        Ok(true)
    }
}
