//! What holds of all runs that are observed turn by turn. Each is the contract of a function that
//! does nothing.
ghost use Rattle.std.specs.Prelude.{ℕ, List, All};
ghost use Rattle.tape_ports.specs.declared.entry.TapeEntry.{TapeEntry};
ghost use Rattle.cpu_core.specs.Ranges.{IsByte};
ghost use Rattle.lockstep_board.specs.Lockstep.{Board};
ghost use Rattle.lockstep_board.specs.Ranges.{IsBoardInRange};
ghost use Rattle.run_trace.specs.BoardFrames.{AllStrokesAreCounted, FramesHaveTheirStrokes};
ghost use Rattle.run_trace.specs.BoardProfile.{AllClocksAreCounted, AddressesAddUp};

/// Each stroke of a run is in one of its frames: their numbers of strokes add up to the strokes.
pub fn all_strokes_are_counted()
    ensures { (entries : List TapeEntry) → (limit : ℕ) → (b : Board) → AllStrokesAreCounted entries limit b }
{}

/// Each frame of a run has exactly the strokes above its mark and up to the next one; frame 0 has
/// all up to the first mark, and the last frame all above the last mark.
pub fn frames_have_their_strokes()
    ensures { (entries : List TapeEntry) → (limit : ℕ) → (b : Board) → FramesHaveTheirStrokes entries limit b }
{}

/// The clocks of the profile of a run are the clocks of the run, and those of all addresses add up
/// to them.
pub fn all_clocks_are_counted()
    ensures clocks { (entries : List TapeEntry) → (limit : ℕ) → (b : Board) → AllClocksAreCounted entries limit b }
    ensures addresses { (entries : List TapeEntry) → (limit : ℕ) → (b : Board) → All (λ entry. IsByte entry.value) entries
        → IsBoardInRange b → AddressesAddUp entries limit b }
{}
