//! Laws on the generator's statements that no call needs when it runs. Each is the contract of a
//! function that does nothing.
ghost use Rattle.std.specs.Prelude.{◌≡◌, ◌↔◌, ℕ, List, Some, true};
ghost use Rattle.std.specs.Str.{str_to_ascii_lowercase};
ghost use Rattle.asm_core.specs.declared.cell.Cell.{Cell};
ghost use Rattle.asm_core.specs.declared.dialect.Form.TheVariants.{Gives};
ghost use Rattle.asm_core.specs.declared.word.Word.{Word};
ghost use Rattle.asm_core.specs.Cells.{all_fine, all_known, cells_bytes};
ghost use Rattle.asm_core.specs.Expressions.{NameValues};
ghost use Rattle.asm_avg.specs.declared.mnemonic.Mnemonic.{Mnemonic};
ghost use Rattle.asm_avg.specs.Language.{statement_of};
ghost use Rattle.asm_avg.specs.ReadBack.{FitsWords, IsReadBack, Said, said_by, values_of};
ghost use Rattle.asm_avg.specs.Statements.{mnemonic_of, text_of};

/// A word begins a statement exactly where its letters, in lower case, are the statement's text.
#[tactic(auto, using(crate::proofs::WordLaws::words))]
pub fn words_in_either_case()
    ensures { (word : List ℕ) → (mnemonic : Mnemonic) → (mnemonic_of word ≡ Some mnemonic) ↔ (str_to_ascii_lowercase word ≡ text_of mnemonic) }
{}

/// In the bytes of a statement whose values are known and in their ranges the generator reads what
/// the statement says. The bits that no field has are 0.
#[tactic(auto, using(crate::proofs::StatementLaws::statements))]
pub fn statements_are_read_back()
    ensures { (names : NameValues) → (mnemonic : Mnemonic) → (rest : List Word) → (cells : List Cell)
        → statement_of mnemonic rest ≡ Gives cells → all_known names cells ≡ true → all_fine names cells ≡ true
        → IsReadBack mnemonic (values_of names rest) (cells_bytes names cells) }
{}

/// A statement's values are in their ranges where what it says fits its words.
#[tactic(auto, using(crate::proofs::StatementLaws::statements))]
pub fn ranges_are_whole()
    ensures { (names : NameValues) → (mnemonic : Mnemonic) → (rest : List Word) → (cells : List Cell) → (said : Said)
        → statement_of mnemonic rest ≡ Gives cells → all_known names cells ≡ true → said_by mnemonic (values_of names rest) ≡ Some said → FitsWords said
        → all_fine names cells ≡ true }
{}
