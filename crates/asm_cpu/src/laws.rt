//! Laws on instructions that no call needs when it runs. Each is the contract of a function that
//! does nothing.
ghost use Rattle.std.specs.Prelude.{◌≡◌, ◌≤◌, ◌+◌, ◌+ℤ◌, ℕ, ℤ, List, Some, false, pos, true};
ghost use Rattle.asm_core.specs.declared.cell.Cell.{Cell};
ghost use Rattle.asm_core.specs.declared.dialect.Form.TheVariants.{Gives};
ghost use Rattle.asm_core.specs.declared.expression.Expression.{Expression};
ghost use Rattle.asm_core.specs.declared.word.Word.{Word};
ghost use Rattle.asm_core.specs.Cells.{all_known, cells_bytes};
ghost use Rattle.asm_core.specs.Expressions.{NameValues, value_of};
ghost use Rattle.cpu_table.specs.declared.instruction.Mode.TheVariants.{Relative};
ghost use Rattle.cpu_table.specs.declared.instruction.Mode.{Mode};
ghost use Rattle.cpu_table.specs.declared.instruction.Op.{Op};
ghost use Rattle.cpu_table.specs.Decoding.{length_of};
ghost use Rattle.asm_cpu.specs.Encodings.{AloneEncodes, HasOneEncoding, is_taken, operand_number, signed_byte};
ghost use Rattle.asm_cpu.specs.Mnemonics.{name_of, op_of};
ghost use Rattle.asm_cpu.specs.Modes.{place_of};
ghost use Rattle.asm_cpu.specs.Statements.{bare_form, instruction_of, mode_form};

use crate::source::PROGRAM_ROM;

/// The addresses whose bytes a source may give, those of the program ROM: 9000 to FFFF.
pub fn source_addresses()
    ensures { PROGRAM_ROM ≡ record { low = 0x9000; high = 0x10000; even = false } }
{}

/// An operation's name is a word that names it.
#[tactic(auto, using(crate::proofs::Names::names))]
pub fn operations_by_their_names()
    ensures { (op : Op) → op_of (name_of op) ≡ Some op }
{}

/// The bytes of an instruction without an expression are the one list that is decoded to its
/// operation and mode.
pub fn bytes_of_an_opcode()
    ensures { (names : NameValues) (op : Op) (mode : Mode) (cells : List Cell) → length_of mode ≡ 1 → bare_form op mode ≡ Gives cells
        → AloneEncodes (cells_bytes names cells) op mode 0 }
{}

/// The bytes of an instruction with an expression, of which all names have a value, are the one
/// list that is decoded to its operation, its mode and its operand.
pub fn bytes_of_an_operand()
    ensures { (names : NameValues) (op : Op) (at : ℕ) (mode : Mode) (e : Expression) (value : ℤ) (cells : List Cell) → mode_form op at mode e ≡ Gives cells
        → value_of names e ≡ Some value → AloneEncodes (cells_bytes names cells) op mode (operand_number mode at value) }
{}

/// The bytes of any instruction, of which all names have a value in the end, are the one list that
/// is decoded to its operation, a mode and an operand.
#[tactic(auto, using(crate::proofs::Encodings::encodings))]
pub fn bytes_of_an_instruction()
    ensures { (names later : NameValues) (at : ℕ) (op : Op) (words : List Word) (cells : List Cell) → instruction_of names at op words ≡ Gives cells
        → all_known later cells ≡ true → HasOneEncoding (cells_bytes later cells) op }
{}

/// What the byte behind a branch's opcode adds, as a signed number, to the address of the next
/// instruction makes the branch's target.
#[tactic(auto, using(crate::proofs::Ranges::ranges))]
pub fn branch_to_its_target()
    ensures { (at : ℕ) (value : ℤ) → is_taken Relative at value ≡ true
        → pos (at + 2) +ℤ signed_byte (operand_number Relative at value) ≡ value }
{}

/// The address that an instruction holds, in its range, is its expression's value.
#[tactic(auto, using(crate::proofs::Ranges::ranges))]
pub fn address_of_an_operand()
    ensures { (mode : Mode) (at : ℕ) (value : ℤ) → (place_of mode).low ≡ pos 0 → 2 ≤ length_of mode → is_taken mode at value ≡ true
        → pos (operand_number mode at value) ≡ value }
{}
