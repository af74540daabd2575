ghost use Rattle.std.specs.Prelude.{◌≡◌};
ghost use Rattle.command_line.specs.Words.{option_word, takes_value};

/// An option of a command.
#[derive(Clone, Copy)]
pub enum Opt {
    /// The file of the state to begin with.
    State,
    /// The file of the EAROM's cells, read before a run and written after it.
    Earom,
    /// The clock to end at, where the tape's END isn't earlier.
    Until,
    /// The clocks to cut a run at.
    Cuts,
    /// The file that states are stored in.
    Save,
    /// Prints a run's device calls after its last line.
    Cost,
    /// Lets the POKEYs' timers interrupt.
    Timers,
}

/// The options of `run`.
pub const RUN_OPTIONS: [Opt; 7] = [
    Opt::State,
    Opt::Earom,
    Opt::Until,
    Opt::Cuts,
    Opt::Save,
    Opt::Cost,
    Opt::Timers,
];

/// The options of `asm`.
pub const ASM_OPTIONS: [Opt; 0] = [];

/// The options of `debug`.
pub const DEBUG_OPTIONS: [Opt; 3] = [Opt::State, Opt::Earom, Opt::Timers];

/// The options of `show`.
pub const SHOW_OPTIONS: [Opt; 0] = [];

/// The options of `soak`.
pub const SOAK_OPTIONS: [Opt; 0] = [];

/// The options of a command that runs and stores nothing.
pub const LOOK_OPTIONS: [Opt; 4] = [Opt::State, Opt::Earom, Opt::Until, Opt::Timers];

impl Opt {
    /// The word that gives the option.
    pub fn word(self) -> &'static str
        ensures { result.now ≡ option_word self }
    {
        match self {
            Opt::State => "--state",
            Opt::Earom => "--earom",
            Opt::Until => "--until",
            Opt::Cuts => "--cuts",
            Opt::Save => "--save",
            Opt::Cost => "--cost",
            Opt::Timers => "--timers",
        }
    }

    /// Whether the next word is the option's value.
    pub fn has_value(self) -> bool
        ensures { result ≡ takes_value self }
    {
        !matches!(self, Opt::Cost | Opt::Timers)
    }
}
