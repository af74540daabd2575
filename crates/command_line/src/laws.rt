//! The words and the limits of the command line as a table, by the contracts of functions that do
//! nothing.
ghost use Rattle.std.specs.Prelude.{◌≡◌, ◌∷◌, [], codes, map};
ghost use Rattle.command_line.specs.Words.{option_word, options_of, verb_word};

use crate::number::{CUTS, PER_LIMIT};
use crate::verb::{VERBS, Verb};

/// The words of the commands, and those of the options that each takes.
pub fn command_words()
    ensures verbs { map verb_word VERBS ≡ codes "run" ∷ codes "asm" ∷ codes "debug" ∷ codes "show" ∷ codes "soak" ∷ codes "pcm" ∷ codes "frames" ∷ codes "seek" ∷ codes "profile" ∷ [] }
    ensures run { map option_word (options_of Verb.Run) ≡ codes "--state" ∷ codes "--earom" ∷ codes "--until" ∷ codes "--cuts" ∷ codes "--save" ∷ codes "--cost" ∷ codes "--timers" ∷ [] }
    ensures asm { map option_word (options_of Verb.Asm) ≡ [] }
    ensures debug { map option_word (options_of Verb.Debug) ≡ codes "--state" ∷ codes "--earom" ∷ codes "--timers" ∷ [] }
    ensures show { map option_word (options_of Verb.Show) ≡ [] }
    ensures soak { map option_word (options_of Verb.Soak) ≡ [] }
    ensures pcm { map option_word (options_of Verb.Pcm) ≡ codes "--state" ∷ codes "--earom" ∷ codes "--until" ∷ codes "--timers" ∷ [] }
    ensures frames { map option_word (options_of Verb.Frames) ≡ codes "--state" ∷ codes "--earom" ∷ codes "--until" ∷ codes "--timers" ∷ [] }
    ensures seek { map option_word (options_of Verb.Seek) ≡ codes "--state" ∷ codes "--earom" ∷ codes "--until" ∷ codes "--timers" ∷ [] }
    ensures profile { map option_word (options_of Verb.Profile) ≡ codes "--state" ∷ codes "--earom" ∷ codes "--until" ∷ codes "--timers" ∷ [] }
{}

/// The most cuts of a run, and the most clocks of a seek, are 1,000, and the most clocks of a
/// sample 65,535.
pub fn command_limits()
    ensures cuts { CUTS ≡ 1000 }
    ensures per { PER_LIMIT ≡ 65535 }
{}
