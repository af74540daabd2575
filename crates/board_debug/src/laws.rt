//! Laws on listings that no call needs when it runs. Each is the contract of a function that does
//! nothing.
ghost use Rattle.std.specs.Prelude.{◌≡◌, ◌<◌, ℕ, ℤ, List, Some, pos, true};
ghost use Rattle.asm_core.specs.declared.cell.Cell.{Cell};
ghost use Rattle.asm_core.specs.declared.dialect.Form.TheVariants.{Gives};
ghost use Rattle.asm_core.specs.declared.expression.Expression.{Expression};
ghost use Rattle.asm_core.specs.declared.word.Word.{Word};
ghost use Rattle.asm_core.specs.Cells.{all_known, cells_bytes};
ghost use Rattle.asm_core.specs.Expressions.{NameValues, value_of};
ghost use Rattle.asm_cpu.specs.Encodings.{Encodes, is_taken, operand_number};
ghost use Rattle.asm_cpu.specs.Statements.{bare_form, instruction_of, mode_form};
ghost use Rattle.cpu_table.specs.declared.instruction.Mode.TheVariants.{Relative};
ghost use Rattle.cpu_table.specs.declared.instruction.Mode.{Mode};
ghost use Rattle.cpu_table.specs.declared.instruction.Op.{Op};
ghost use Rattle.cpu_table.specs.Decoding.{length_of};
ghost use Rattle.board_debug.specs.Instructions.{target_of};
ghost use Rattle.board_debug.specs.Listed.{ReadsAs, ReadsAsSome};

use crate::columns::HEAD;
use crate::dis::BYTES;
use crate::mem::ROW;
use crate::vdis::WORDS;
use asm_cpu::laws::{
    branch_to_its_target, bytes_of_an_instruction, bytes_of_an_opcode, bytes_of_an_operand,
};

/// The places of an address with its colon, the bytes of one line of `mem`, and the places of the
/// bytes of a `dis` line and of the words of a `vdis` line.
pub fn line_widths()
    ensures head { HEAD ≡ 5 }
    ensures row { ROW ≡ 16 }
    ensures bytes { BYTES ≡ 9 }
    ensures words { WORDS ≡ 10 }
{}

/// Bytes that are decoded to an operation, a mode and an operand are shown in one line, as these.
pub fn instructions_are_shown_as_they_are_decoded()
    ensures { (address operand : ℕ) (bytes : List ℕ) (op : Op) (mode : Mode) → Encodes bytes op mode operand → ReadsAs address bytes op mode operand }
{}

/// What the assembler makes of an instruction without an expression is shown as it.
pub fn an_assembled_opcode_is_shown()
    ensures { (names : NameValues) (at : ℕ) (op : Op) (mode : Mode) (cells : List Cell) → length_of mode ≡ 1 → bare_form op mode ≡ Gives cells
        → ReadsAs at (cells_bytes names cells) op mode 0 }
{
    bytes_of_an_opcode();
}

/// What the assembler makes of an instruction with an expression, of which all names have a value,
/// is shown as it: its operand is the expression's.
pub fn an_assembled_operand_is_shown()
    ensures { (names : NameValues) (op : Op) (at : ℕ) (mode : Mode) (e : Expression) (value : ℤ) (cells : List Cell) → mode_form op at mode e ≡ Gives cells
        → value_of names e ≡ Some value → ReadsAs at (cells_bytes names cells) op mode (operand_number mode at value) }
{
    bytes_of_an_operand();
}

/// What the assembler makes of any instruction line, of which all names have a value in the end, is
/// shown as an instruction of the same name.
pub fn an_assembled_instruction_is_shown()
    ensures { (names later : NameValues) (at : ℕ) (op : Op) (words : List Word) (cells : List Cell) → instruction_of names at op words ≡ Gives cells
        → all_known later cells ≡ true → ReadsAsSome at (cells_bytes later cells) op }
{
    bytes_of_an_instruction();
}

/// The address that is shown for an assembled branch is the one that its expression names.
pub fn a_branch_shows_its_target()
    ensures { (at target : ℕ) → target < 0x10000 → is_taken Relative at (pos target) ≡ true
        → target_of at (operand_number Relative at (pos target)) ≡ target }
{
    branch_to_its_target();
}
