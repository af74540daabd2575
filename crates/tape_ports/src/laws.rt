//! Laws on tapes that no call needs when it runs. Each is the contract of a function that does
//! nothing.
ghost use Rattle.std.specs.Prelude.{◌≡◌, ◌↔◌, ℕ, List, Ok};
ghost use Rattle.tape_ports.specs.Due.{AreTogether};
ghost use Rattle.tape_ports.specs.Grammar.{tape_of};
ghost use Rattle.tape_ports.specs.Tape.{TapeValue};
ghost use Rattle.tape_ports.specs.TapeText.{IsTapeText};
ghost use Rattle.tape_ports.specs.declared.entry.TapeEntry.{TapeEntry};

use crate::tape::TAPE_LIMIT;

/// The entries of a clock stand next to one another, from its place up to that of the next clock.
#[tactic(auto, using(crate::proofs::DueLaws::entries_together))]
pub fn entries_of_a_clock()
    ensures { (clock : ℕ) (entries : List TapeEntry) → AreTogether clock entries }
{}

/// A text is a tape exactly where its lines but the last are entry lines, the last is the END line,
/// and the clocks don't fall.
pub fn tape_by_its_lines()
    ensures { (text : List ℕ) (tape : TapeValue) → (tape_of text ≡ Ok tape) ↔ IsTapeText text tape }
{}

/// The most bytes of a tape's text: 16,777,216, which is 16 MiB.
pub fn tape_limits()
    ensures bytes { TAPE_LIMIT ≡ 16777216 }
{}
