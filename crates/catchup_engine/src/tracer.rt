ghost use Rattle.std.specs.Prelude.{◌≡◌, ◌≤◌, ℕ, Bool, IfSome, List, length, true};
ghost use Rattle.catchup_engine.specs.Notes.{note_of};
ghost use Rattle.catchup_engine.specs.Trace.{TraceValue};
ghost use Rattle.catchup_engine.specs.Together.{TakesTogether};

use crate::note::TurnNote;

/// An observer of each turn of a run: what was left of a sequence, or one instruction or
/// sequence.
///
/// It takes the instructions of some opcodes together. Of such instructions only the last may start
/// the generator.
pub trait Tracer {
    /// What it is after a turn, by the trace of the turn and the program counter after it.
    ghost next: { Self → TraceValue → ℕ → Self };

    /// It has enough, so that the run ends.
    ghost has_enough: { Self → Bool };

    /// The opcodes of the instructions that it takes together.
    ghost plain: { ℕ → Bool };

    /// What it is after some of these instructions, by their clocks, the number of their accesses
    /// that reach a device, and the clocks of the last one's writes that start the generator.
    ghost after_plain: { Self → ℕ → ℕ → List ℕ → Self };

    /// To take them together is to take each of them, and only after the last it has enough.
    ghost together: { TakesTogether Self.next Self.has_enough after_plain plain };

    /// Whether the instruction of this opcode, or of any where none is given, is taken with others.
    fn is_plain(opcode: Option<u8>) -> bool
        ensures { result ≡ true → (code : ℕ) → IfSome opcode (λ given. given ≡ code) → plain code ≡ true };

    /// Takes some of these instructions, and returns whether the run is to end there.
    fn plain_turns(&mut self, clocks: u64, accesses: u64, starts: &[u64]) -> bool
        requires few { length starts.now ≤ 7 }
        ensures next { self.new ≡ after_plain self.old clocks accesses starts.now }
        ensures enough { result ≡ has_enough self.new };

    /// Takes the note of a turn and the program counter after it, and returns whether the run is to
    /// end there.
    fn turn(&mut self, note: &TurnNote<'_>, pc: u16) -> bool
        ensures next { (trace : TraceValue) → note.now ≡ note_of trace → self.new ≡ next self.old trace pc }
        ensures enough { result ≡ has_enough self.new };
}
