//! What holds of samples. Each is the contract of a function that does nothing.
ghost use Rattle.std.specs.Prelude.{◌≡◌, ℕ, ◌≤◌, ◌<◌, List, ◌*◌, ◌^◌};
ghost use Rattle.board_base.specs.declared.board.TheConstants.{CLOCK_END};
ghost use Rattle.board_base.specs.declared.record.Record.{Record as RecordValue};
ghost use Rattle.sound_pcm.specs.Mixing.{MixerValue};
ghost use Rattle.sound_pcm.specs.WholeRun.{HasLevels, IsCut, IsTakenInParts, MakesRun, MakesSmallSamples};

use crate::mixer::{MAX_LEVEL, MAX_PER};
use outside_io::BLOCK_LEN;

/// The numbers of a mixer, each by its name in the definitions: a block is 4,096 bytes, which are
/// 1,024 samples; a group has 65,535 clocks at most, and a level is at most 15.
pub fn mixer_numbers()
    ensures block { (BLOCK_LEN ≡ 4096) × (BLOCK_LEN ≡ 4 * 1024) }
    ensures limits { (MAX_PER ≡ 65535) × (MAX_LEVEL ≡ 15) × (CLOCK_END ≡ 2 ^ 49) }
{}

/// A mixer that begins a group makes a sample for each whole group of clocks from its own on, the
/// sum of their weights, and no other.
#[tactic(auto, using(crate::proofs::RunLaws::makes_run))]
pub fn whole_groups()
    ensures { (m : MixerValue) → 1 ≤ m.per → m.sum ≡ 0 → m.count ≡ 0 → (sound1 sound2 : List RecordValue) → (upto : ℕ) → MakesRun m sound1 sound2 upto }
{}

/// To take a first part of the records and then the rest is to take the whole.
pub fn in_parts()
    ensures { (m : MixerValue) → (first1 first2 rest1 rest2 : List RecordValue) → (at upto : ℕ)
        → IsCut m first1 first2 rest1 rest2 at upto → IsTakenInParts m first1 first2 rest1 rest2 at upto }
{}

/// Where no level is above 15, a sample is at most 120 × 65,535, so that four bytes hold it.
#[tactic(auto, using(crate::proofs::FitLaws::samples_fit))]
pub fn samples_fit()
    ensures most { (m : MixerValue) → (sound1 sound2 : List RecordValue) → (upto : ℕ) → HasLevels m sound1 sound2 → MakesSmallSamples m sound1 sound2 upto }
    ensures bytes { 120 * 65535 < 2 ^ 32 }
{}
