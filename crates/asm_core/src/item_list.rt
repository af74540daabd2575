ghost use Rattle.std.specs.Prelude.{◌≡◌, ◌*◌, ◌<◌, ◌≤◌, IfOk, IfSome, length, nat_lt};
ghost use Rattle.rom_image.specs.declared.image.TheConstants.{PROGRAM_ROM_LEN};
ghost use Rattle.asm_core.specs.Cells.{IsCell, IsFieldPlace};
ghost use Rattle.asm_core.specs.Forms.{AreCells};
ghost use Rattle.asm_core.specs.Lists.{cells_of, value_cell};
ghost use Rattle.asm_core.specs.Words.{items_of};

use crate::long_list::LongList;
use crate::{Cell, Cells, Expression, Field, List, Place, Words, read_expression, split_item};
use board_base::OutOfMemory;
use rom_image::PROGRAM_ROM_LEN;
use std::alloc::Global;

/// A cell of so many bytes that holds one expression's value.
pub fn value_cell<'a>(
    alloc: Global,
    place: Place,
    size: u8,
    expression: Expression<'a>,
) -> Result<Cell<'a>, OutOfMemory>
    requires some { 1 ≤ size }
    requires few { size ≤ 4 }
    requires place { IsFieldPlace place }
    ensures value { IfOk result (λ cell. cell ≡ value_cell place size expression.entry) }
    ensures cell { IfOk result IsCell }
{
    let mut fields = List::new(alloc);
    fields.push(Field {
        expression,
        origin: 0,
        place,
    })?;
    Ok(Cell {
        size,
        base: 0,
        fields,
    })
}

/// A cell of so many bytes for each expression of a list that commas part, each in memory.
#[tactic(auto, using(crate::proofs::Lists::steps), unfolding(crate::specs::Lists::cells_of))]
fn read_each<'a>(
    alloc: Global,
    words: &Words<'a>,
    place: Place,
    size: u8,
) -> Result<Option<List<Cell<'a>>>, OutOfMemory>
    requires some { 1 ≤ size }
    requires few { size ≤ 4 }
    requires place { IsFieldPlace place }
    ensures list { IfOk result (λ read. read ≡ cells_of place size (items_of words.now)) }
    ensures cells { IfOk result (λ read. IfSome read AreCells) }
{
    let mut cells = List::new(alloc);
    let mut list = Some(words.copied());
    'items: while let Some(rest) = list {
        let (item, after) = split_item(&rest);
        let Some(expression) = read_expression(alloc, &item)? else {
            return Ok(None);
        };
        let cell = value_cell(alloc, place, size, expression)?;
        cells.push(cell)?;
        list = after;
    }
    Ok(Some(cells))
}

/// Whether a list gives more bytes than the largest ROM has, where each item gives so many.
#[tactic(auto, using(crate::proofs::LongItems::lengths))]
fn is_long(words: &Words, size: u8) -> bool
    ensures { result ≡ nat_lt PROGRAM_ROM_LEN (length (items_of words.now) * size) }
{
    let mut bytes = 0;
    let mut list = Some(words.copied());
    'items: while let Some(rest) = list {
        let (_, after) = split_item(&rest);
        bytes += usize::from(size);
        if bytes > PROGRAM_ROM_LEN {
            return true;
        }
        list = after;
    }
    false
}

/// A list of more bytes than a ROM has, whose text is kept, where each item is an expression.
#[tactic(auto, using(crate::proofs::LongItems::lists), unfolding(crate::specs::Lists::cells_of))]
fn read_long<'a>(
    alloc: Global,
    words: &Words<'a>,
    place: Place,
    size: u8,
) -> Result<Option<LongList<'a>>, OutOfMemory>
    requires some { 1 ≤ size }
    requires few { size ≤ 4 }
    requires place { IsFieldPlace place }
    requires long { PROGRAM_ROM_LEN < length (items_of words.now) * size }
    ensures list { IfOk result (λ read. read ≡ cells_of place size (items_of words.now)) }
    ensures cells { IfOk result (λ read. IfSome read AreCells) }
{
    let mut list = Some(words.copied());
    'items: while let Some(rest) = list {
        let (item, after) = split_item(&rest);
        let Some(_expression) = read_expression(alloc, &item)? else {
            return Ok(None);
        };
        list = after;
    }
    Ok(Some(LongList::new(alloc, words, place, size)))
}

/// A cell of so many bytes for each expression of a list that commas part.
pub fn read_list<'a>(
    alloc: Global,
    words: &Words<'a>,
    place: Place,
    size: u8,
) -> Result<Option<Cells<'a>>, OutOfMemory>
    requires some { 1 ≤ size }
    requires few { size ≤ 4 }
    requires place { IsFieldPlace place }
    ensures list { IfOk result (λ read. read ≡ cells_of place size (items_of words.now)) }
    ensures cells { IfOk result (λ read. IfSome read AreCells) }
{
    if is_long(words, size) {
        let list = read_long(alloc, words, place, size)?;
        return Ok(list.map(Cells::long));
    }
    let cells = read_each(alloc, words, place, size)?;
    Ok(cells.map(Cells::each))
}
