ghost use Rattle.std.specs.Prelude.{◌≡◌, IfOk};
ghost use Rattle.asm_core.specs.Forms.{IsForm};
ghost use Rattle.asm_avg.specs.Language.{language, statement_of};

use crate::Mnemonic;
use crate::operands::read_fields;
use asm_core::{Cell, Cells, Dialect, Form, Names, Words};
use board_base::OutOfMemory;
use std::alloc::Global;

/// The language of the vector generator's statements.
#[derive(Clone, Copy, Debug, PartialEq, Eq)]
pub struct Avg;

/// The form of a statement that begins with this word.
fn read_form<'a>(
    alloc: Global,
    mnemonic: Mnemonic,
    rest: &Words<'a>,
) -> Result<Form<'a>, OutOfMemory>
    ensures form { IfOk result (λ form. form ≡ statement_of mnemonic rest.now) }
    ensures cells { IfOk result IsForm }
{
    let Some(fields) = read_fields(alloc, mnemonic.origin(), mnemonic.places(), rest)? else {
        return Ok(Form::NoSuchForm);
    };
    let cell = Cell {
        size: mnemonic.size(),
        base: mnemonic.base(),
        fields,
    };
    Ok(Form::Gives(Cells::one(alloc, cell)))
}

impl Dialect for Avg {
    ghost use Rattle.asm_avg.specs.Language.{language};

    ghost language = { language };

    fn read_statement<'a>(
        &self,
        alloc: Global,
        first: &'a [u8],
        rest: &Words<'a>,
        _names: &Names<'a>,
        _at: u32,
    ) -> Result<Form<'a>, OutOfMemory> {
        match Mnemonic::of(first) {
            Some(mnemonic) => read_form(alloc, mnemonic, rest),
            None => Ok(Form::NotReserved),
        }
    }
}
