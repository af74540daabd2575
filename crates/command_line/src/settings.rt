ghost use Rattle.std.specs.Prelude.{◌≡◌};
ghost use Rattle.command_line.specs.Settings.{no_settings, with_flag, with_value};

use crate::number::{Cuts, read_cuts, read_number};
use crate::option::Opt;
use crate::word::read_name;
use std::marker::Model;

/// What the options of a command say. `cuts` is empty where the option isn't given.
#[derive(Drop)]
pub struct Settings<'a> {
    pub state: Option<&'a str>,
    pub earom: Option<&'a str>,
    pub until: Option<u64>,
    pub cuts: Cuts,
    pub save: Option<&'a str>,
    pub cost: bool,
    pub timers: bool,
}

impl<'a> Model for Settings<'a> {
    ghost use Rattle.std.specs.Option.{option_map};
    ghost use Rattle.command_line.specs.SettingsValue.{SettingsValue};

    ghost Value = { SettingsValue };

    ghost view = { λ s. record { state = option_map (λ name. name.now) s.state; earom = option_map (λ name. name.now) s.earom; until = s.until; cuts = s.cuts.items; save = option_map (λ name. name.now) s.save; cost = s.cost; timers = s.timers } };
}

impl<'a> Settings<'a> {
    /// No option is given.
    pub fn new() -> Settings<'a>
        ensures { result ≡ no_settings }
    {
        Settings {
            state: None,
            earom: None,
            until: None,
            cuts: Cuts::new(),
            save: None,
            cost: false,
            timers: false,
        }
    }

    /// With the value of an option that isn't given yet.
    pub fn with_value(mut self, option: Opt, word: &'a str) -> Option<Settings<'a>>
        ensures { result ≡ with_value option word.now self.entry }
    {
        match option {
            Opt::State if self.state.is_none() => self.state = Some(read_name(word)?),
            Opt::Earom if self.earom.is_none() => self.earom = Some(read_name(word)?),
            Opt::Until if self.until.is_none() => self.until = Some(read_number(word.as_bytes())?),
            Opt::Cuts if self.cuts.is_empty() => self.cuts = read_cuts(word)?,
            Opt::Save if self.save.is_none() => self.save = Some(read_name(word)?),
            _ => return None,
        }
        Some(self)
    }

    /// With an option that has no value and isn't given yet.
    pub fn with_flag(mut self, option: Opt) -> Option<Settings<'a>>
        ensures { result ≡ with_flag option self.entry }
    {
        match option {
            Opt::Cost if !self.cost => self.cost = true,
            Opt::Timers if !self.timers => self.timers = true,
            _ => return None,
        }
        Some(self)
    }
}
