ghost use Rattle.std.specs.Prelude.{◌≡◌, [], IfOk, IfSome, map};
ghost use Rattle.std.specs.Option.{option_map_or};
ghost use Rattle.asm_core.specs.Words.{items_of};
ghost use Rattle.asm_avg.specs.Operands.{fields_of, operands_of};

use asm_core::{Field, List, Place, Words, read_expression, split_item};
use board_base::OutOfMemory;
use std::alloc::Global;

/// The list of the operands behind a statement's first word, where a word stands there.
fn operand_list<'a>(words: &Words<'a>) -> Option<Words<'a>>
    ensures { option_map_or (λ list. items_of list) result [] ≡ operands_of words.now }
{
    if words.is_empty() {
        None
    } else {
        Some(words.copied())
    }
}

/// The fields of a statement that has these places: an expression for each of them, with commas
/// between them.
#[tactic(auto, using(crate::proofs::Fields::steps), unfolding(crate::specs::Operands::fields_of))]
pub(crate) fn read_fields<'a>(
    alloc: Global,
    origin: u32,
    places: &[Place],
    words: &Words<'a>,
) -> Result<Option<List<Field<'a>>>, OutOfMemory>
    ensures fields { IfOk result (λ read. read ≡ fields_of origin places.now (operands_of words.now)) }
    ensures places { IfOk result (λ read. IfSome read (λ fields. map (λ field. field.place) fields ≡ places.now)) }
{
    let mut fields = List::new(alloc);
    let mut list = operand_list(words);
    'places: for place in places {
        let Some(rest) = list else {
            return Ok(None);
        };
        let (item, after) = split_item(&rest);
        let Some(expression) = read_expression(alloc, &item)? else {
            return Ok(None);
        };
        fields.push(Field {
            expression,
            origin,
            place: *place,
        })?;
        list = after;
    }
    match list {
        Some(_) => Ok(None),
        None => Ok(Some(fields)),
    }
}
