ghost use Rattle.std.specs.Prelude.{◌≡◌};
ghost use Rattle.command_line.specs.Words.{option_of, options_of, verb_of, verb_word};

use crate::option::{
    ASM_OPTIONS, DEBUG_OPTIONS, LOOK_OPTIONS, Opt, RUN_OPTIONS, SHOW_OPTIONS, SOAK_OPTIONS,
};

/// What a command does.
#[derive(Clone, Copy)]
pub enum Verb {
    /// Runs an image with a tape.
    Run,
    /// Assembles two sources into an image.
    Asm,
    /// Debugs an image with a tape by a script.
    Debug,
    /// Shows a state.
    Show,
    /// Runs the workload of a number.
    Soak,
    /// Writes the samples of a run.
    Pcm,
    /// Writes the frames of a run.
    Frames,
    /// Seeks clocks in a run.
    Seek,
    /// Writes the profile of a run.
    Profile,
}

/// Each command.
pub const VERBS: [Verb; 9] = [
    Verb::Run,
    Verb::Asm,
    Verb::Debug,
    Verb::Show,
    Verb::Soak,
    Verb::Pcm,
    Verb::Frames,
    Verb::Seek,
    Verb::Profile,
];

impl Verb {
    /// The word of the command.
    pub fn word(self) -> &'static str
        ensures { result.now ≡ verb_word self }
    {
        match self {
            Verb::Run => "run",
            Verb::Asm => "asm",
            Verb::Debug => "debug",
            Verb::Show => "show",
            Verb::Soak => "soak",
            Verb::Pcm => "pcm",
            Verb::Frames => "frames",
            Verb::Seek => "seek",
            Verb::Profile => "profile",
        }
    }

    /// The options that the command takes.
    pub fn options(self) -> &'static [Opt]
        ensures { result.now ≡ options_of self }
    {
        match self {
            Verb::Run => &RUN_OPTIONS,
            Verb::Asm => &ASM_OPTIONS,
            Verb::Debug => &DEBUG_OPTIONS,
            Verb::Show => &SHOW_OPTIONS,
            Verb::Soak => &SOAK_OPTIONS,
            Verb::Pcm => &LOOK_OPTIONS,
            Verb::Frames => &LOOK_OPTIONS,
            Verb::Seek => &LOOK_OPTIONS,
            Verb::Profile => &LOOK_OPTIONS,
        }
    }

    /// The command of a word.
    pub fn of(word: &str) -> Option<Verb>
        ensures { result ≡ verb_of word.now }
    {
        VERBS.iter().copied().find(|verb| verb.word() == word)
    }

    /// The option of a word, if the command takes it.
    pub fn option(self, word: &str) -> Option<Opt>
        ensures { result ≡ option_of self word.now }
    {
        self.options()
            .iter()
            .copied()
            .find(|option| option.word() == word)
    }
}
