//! What holds of the samples of all runs. It is the contract of a function that does nothing.
ghost use Rattle.std.specs.Prelude.{ℕ, ◌*◌, ◌^◌, ◌<◌, ◌≤◌, List, All};
ghost use Rattle.tape_ports.specs.declared.entry.TapeEntry.{TapeEntry};
ghost use Rattle.cpu_core.specs.Ranges.{IsByte};
ghost use Rattle.lockstep_board.specs.Lockstep.{Board};
ghost use Rattle.lockstep_board.specs.Ranges.{IsBoardInRange};
ghost use Rattle.sound_pcm.specs.declared.mixer.TheConstants.{MAX_PER};
ghost use Rattle.run_samples.specs.BoardSamples.{AreSmallSamples, board_samples};

/// Each sample of a run is at most 120 × 65,535, so that four bytes hold it.
#[tactic(auto, using(crate::proofs::SmallLaws::run_samples_fit))]
pub fn run_samples_fit()
    ensures most { (entries : List TapeEntry) → (limit per : ℕ) → (b : Board) → All (λ entry. IsByte entry.value) entries
        → IsBoardInRange b → per ≤ MAX_PER → AreSmallSamples (board_samples entries limit per b) }
    ensures bytes { 120 * 65535 < 2 ^ 32 }
{}
