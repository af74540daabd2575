//! What holds of the outcome of a command line. The function states a law, and does nothing.
ghost use Rattle.std.specs.Prelude.{◌≡◌, ◌≤◌, ℕ, List, Result, length, Ok, Some};
ghost use Rattle.board_base.specs.Board.{BoardValue};
ghost use Rattle.command_line.specs.CommandLine.{command_of};
ghost use Rattle.command_line.specs.CommandValue.{run_of};
ghost use Rattle.command_line.specs.Words.{name_of};
ghost use Rattle.outside_io.specs.Shelf.{Files};
ghost use Rattle.rom_image.specs.declared.image.TheConstants.{IMAGE_LEN};
ghost use Rattle.save_state.specs.declared.fault.StateFault.{StateFault};
ghost use Rattle.tape_ports.specs.declared.tape.TheConstants.{TAPE_LIMIT};
ghost use Rattle.tape_ports.specs.Grammar.{tape_of};
ghost use Rattle.tape_ports.specs.Tape.{TapeValue};
ghost use Rattle.gravitar_commands.specs.Outcome.{command_outcome};
ghost use Rattle.gravitar_commands.specs.PlainRun.{plain_outcome, plain_value, plain_words};

/// What `run IMAGE TAPE` comes to, where both words are names and both files are there and
/// well-formed: the outcome of which [`gravitar`](crate::gravitar) makes its promises.
pub fn plain_run()
    ensures words { (image tape : List ℕ) → name_of image ≡ Some image → name_of tape ≡ Some tape
        → command_of (plain_words image tape) ≡ Some (run_of (plain_value image tape)) }
    ensures outcome { (files : Files) → (image tape bytes text : List ℕ) → (read : TapeValue) → (reading : Result BoardValue StateFault) → (calls : ℕ)
        → files image ≡ Some bytes → length bytes ≡ IMAGE_LEN
        → files tape ≡ Some text → length text ≤ TAPE_LIMIT → tape_of text ≡ Ok read
        → command_outcome (run_of (plain_value image tape)) files reading calls ≡ plain_outcome bytes read }
{}
