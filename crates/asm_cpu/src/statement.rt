ghost use Rattle.std.specs.Prelude.{◌≡◌, ◌≤◌, [], ◌∷◌, IfOk};
ghost use Rattle.asm_core.specs.Cells.{IsCell};
ghost use Rattle.asm_core.specs.Forms.{IsForm};
ghost use Rattle.asm_core.specs.Lists.{cells_of};
ghost use Rattle.asm_core.specs.Words.{items_of};
ghost use Rattle.asm_cpu.specs.Operands.{shape_of};
ghost use Rattle.asm_cpu.specs.Statements.{bare_form, instruction_of, list_form, mode_form, opcode_cell, operand_cell, operand_form};

use crate::mnemonics::read_op;
use crate::mode::{choose_mode, origin, place};
use crate::operand::{Shape, is_register, read_shape};
use asm_core::{
    BYTE, Cell, Cells, Dialect, Expression, Field, Form, List, Names, Words, read_expression,
    read_list,
};
use board_base::OutOfMemory;
use cpu_table::{Mode, Op, encode, length};
use std::alloc::Global;

/// A statement of one cell.
fn one_cell<'a>(alloc: Global, cell: Cell<'a>) -> Result<Form<'a>, OutOfMemory>
    requires { IsCell cell }
    ensures value { IfOk result (λ form. form ≡ Form.Gives (cell.entry ∷ [])) }
    ensures cells { IfOk result IsForm }
{
    Ok(Form::Gives(Cells::one(alloc, cell)))
}

/// An opcode alone.
fn opcode_cell<'a>(alloc: Global, opcode: u8) -> Cell<'a>
    ensures value { result ≡ opcode_cell opcode }
    ensures cell { IsCell result }
{
    Cell {
        size: 1,
        base: u32::from(opcode),
        fields: List::new(alloc),
    }
}

/// An opcode at an address, and its operand behind it.
fn operand_cell<'a>(
    alloc: Global,
    at: u32,
    mode: Mode,
    expression: Expression<'a>,
    opcode: u8,
) -> Result<Cell<'a>, OutOfMemory>
    requires { at ≤ 65536 }
    ensures value { IfOk result (λ cell. cell ≡ operand_cell at mode expression.entry opcode) }
    ensures cell { IfOk result IsCell }
{
    let mut fields = List::new(alloc);
    fields.push(Field {
        expression,
        origin: origin(mode, at),
        place: place(mode),
    })?;
    Ok(Cell {
        size: length(mode),
        base: u32::from(opcode),
        fields,
    })
}

/// An instruction without an expression.
fn bare<'a>(alloc: Global, op: Op, mode: Mode) -> Result<Form<'a>, OutOfMemory>
    ensures form { IfOk result (λ form. form ≡ bare_form op mode) }
    ensures cells { IfOk result IsForm }
{
    match encode(op, mode) {
        Some(opcode) => one_cell(alloc, opcode_cell(alloc, opcode)),
        None => Ok(Form::NoSuchForm),
    }
}

/// An instruction at an address, in this mode and with this expression.
fn with_expression<'a>(
    alloc: Global,
    op: Op,
    at: u32,
    mode: Mode,
    expression: Expression<'a>,
) -> Result<Form<'a>, OutOfMemory>
    requires { at ≤ 65536 }
    ensures form { IfOk result (λ form. form ≡ mode_form op at mode expression.entry) }
    ensures cells { IfOk result IsForm }
{
    match encode(op, mode) {
        Some(opcode) => one_cell(alloc, operand_cell(alloc, at, mode, expression, opcode)?),
        None => Ok(Form::NoSuchForm),
    }
}

/// An instruction with an operand.
fn with_operand<'a>(
    alloc: Global,
    op: Op,
    words: &Words<'a>,
    names: &Names<'a>,
    at: u32,
) -> Result<Form<'a>, OutOfMemory>
    requires { at ≤ 65536 }
    ensures form { IfOk result (λ form. form ≡ operand_form names.now at op (shape_of words.now)) }
    ensures cells { IfOk result IsForm }
{
    let Some((shape, inner)) = read_shape(words) else {
        return Ok(Form::NoSuchForm);
    };
    let Some(expression) = read_expression(alloc, &inner)? else {
        return Ok(Form::NoSuchForm);
    };
    let mode = choose_mode(names, op, shape, &expression);
    with_expression(alloc, op, at, mode, expression)
}

/// An instruction: what stands behind its word is nothing, `a`, or an operand with an expression.
#[tactic(auto, unfolding(crate::specs::Statements::instruction_of))]
fn read_instruction<'a>(
    alloc: Global,
    op: Op,
    words: &Words<'a>,
    names: &Names<'a>,
    at: u32,
) -> Result<Form<'a>, OutOfMemory>
    requires { at ≤ 65536 }
    ensures form { IfOk result (λ form. form ≡ instruction_of names.now at op words.now) }
    ensures cells { IfOk result IsForm }
{
    if words.is_empty() {
        bare(alloc, op, Mode::Implied)
    } else if is_register(words, b'a') {
        bare(alloc, op, Mode::Accumulator)
    } else {
        with_operand(alloc, op, words, names, at)
    }
}

/// A list of bytes.
fn read_bytes<'a>(alloc: Global, words: &Words<'a>) -> Result<Form<'a>, OutOfMemory>
    ensures form { IfOk result (λ form. form ≡ list_form (cells_of BYTE 1 (items_of words.now))) }
    ensures cells { IfOk result IsForm }
{
    match read_list(alloc, words, BYTE, 1)? {
        Some(cells) => Ok(Form::Gives(cells)),
        None => Ok(Form::NoSuchForm),
    }
}

/// The language of processor sources.
pub(crate) struct Cpu;

impl Dialect for Cpu {
    ghost use Rattle.asm_cpu.specs.Statements.{cpu_statement};

    ghost language = { cpu_statement };

    #[tactic(auto, unfolding(crate::specs::Statements::cpu_statement))]
    fn read_statement<'a>(
        &self,
        alloc: Global,
        first: &'a [u8],
        rest: &Words<'a>,
        names: &Names<'a>,
        at: u32,
    ) -> Result<Form<'a>, OutOfMemory> {
        if first.eq_ignore_ascii_case(b".byte") {
            return read_bytes(alloc, rest);
        }
        match read_op(first) {
            Some(op) => read_instruction(alloc, op, rest, names, at),
            None => Ok(Form::NotReserved),
        }
    }
}
