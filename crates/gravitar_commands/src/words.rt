ghost use Rattle.std.specs.Prelude.{◌≡◌, ◌++◌, ◌∷◌, [], IfSome, OnOk, OnErr};
ghost use Rattle.std.specs.Option.{option_map};
ghost use Rattle.command_line.specs.Clocks.{HasClocks};
ghost use Rattle.command_line.specs.CommandLine.{command_of};
ghost use Rattle.command_line.specs.CommandWords.{command_value};

use board_base::OutOfMemory;
use command_line::{Command, read_command};
use std::alloc::Global;
use std::marker::Model;

/// The words of a command line, without the program's name.
#[derive(Drop)]
pub struct Words {
    alloc: Global,
    words: Vec<String>,
}

impl Model for Words {
    ghost use Rattle.std.specs.Prelude.{ℕ, List, map, string_bytes};

    ghost Value = { List (List ℕ) };

    ghost view = { λ w. map string_bytes w.words.items };
}

impl Words {
    /// No word. It takes no memory yet.
    pub fn new(alloc: Global) -> Words
        ensures { result ≡ [] }
    {
        Words {
            alloc,
            words: Vec::new(alloc),
        }
    }

    /// Appends a word.
    pub fn push(&mut self, word: &str) -> Result<(), OutOfMemory>
        ensures ok { OnOk result (self.new ≡ self.old ++ word.now ∷ []) }
        ensures err { OnErr result (self.new ≡ self.old) }
    {
        let word = String::from_str(self.alloc, word)?;
        self.words.push(word)?;
        Ok(())
    }

    /// The command of these words, if they are of a form.
    pub(crate) fn command(&self) -> Option<Command<'_>>
        ensures command { option_map command_value result ≡ command_of self.now }
        ensures clocks { IfSome result (λ command. HasClocks (command_value command)) }
    {
        read_command(self.words.as_slice())
    }
}
