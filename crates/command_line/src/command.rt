ghost use Rattle.std.specs.Prelude.{◌≡◌, length, map, not, string_bytes, take_while};
ghost use Rattle.std.specs.Option.{option_map, IfSome};
ghost use Rattle.command_line.specs.Clocks.{AreClocks, HasClocks};
ghost use Rattle.command_line.specs.CommandLine.{arguments_of, built, command_of, options_after, run_words};
ghost use Rattle.command_line.specs.CommandWords.{command_value};
ghost use Rattle.command_line.specs.Settings.{settings_of};
ghost use Rattle.command_line.specs.Words.{is_dashed};

use crate::number::{Cuts, read_clocks, read_number, read_per};
use crate::option::Opt;
use crate::settings::Settings;
use crate::verb::Verb;
use crate::word::{is_dashed, read_name};
use std::marker::Model;

/// The words of a run.
#[derive(Drop)]
pub struct RunWords<'a> {
    pub image: &'a str,
    pub tape: &'a str,
    pub settings: Settings<'a>,
}

impl<'a> Model for RunWords<'a> {
    ghost use Rattle.command_line.specs.CommandValue.{RunValue};

    ghost Value = { RunValue };

    ghost view = { λ r. record { image = r.image.now; tape = r.tape.now; settings = r.settings } };
}

impl<'a> RunWords<'a> {
    /// A run of two files, where both words are names.
    fn of(image: &'a str, tape: &'a str, settings: Settings<'a>) -> Option<RunWords<'a>>
        requires { AreClocks settings }
        ensures words { result ≡ run_words image.now tape.now settings.entry }
        ensures clocks { IfSome result (λ run. AreClocks run.settings) }
    {
        Some(RunWords {
            image: read_name(image)?,
            tape: read_name(tape)?,
            settings,
        })
    }
}

/// The words of an assembly: two sources, and where the image is stored.
#[derive(Drop)]
pub struct AsmWords<'a> {
    pub processor: &'a str,
    pub generator: &'a str,
    pub image: &'a str,
}

impl<'a> Model for AsmWords<'a> {
    ghost use Rattle.command_line.specs.CommandValue.{AsmValue};

    ghost Value = { AsmValue };

    ghost view = { λ w. record { processor = w.processor.now; generator = w.generator.now; image = w.image.now } };
}

/// The words of a debugger's session: those of a run, whose options are fewer, and its script.
#[derive(Drop)]
pub struct DebugWords<'a> {
    pub run: RunWords<'a>,
    pub script: &'a str,
}

impl<'a> Model for DebugWords<'a> {
    ghost use Rattle.command_line.specs.CommandValue.{DebugValue};

    ghost Value = { DebugValue };

    ghost view = { λ w. record { run = w.run; script = w.script.now } };
}

/// The words of a run whose samples are asked for: those of a run, whose options are fewer, and the
/// clocks of a sample, 1 to 65,535.
#[derive(Drop)]
pub struct PcmWords<'a> {
    pub run: RunWords<'a>,
    pub per: u32,
}

impl<'a> Model for PcmWords<'a> {
    ghost use Rattle.command_line.specs.CommandValue.{PcmValue};

    ghost Value = { PcmValue };

    ghost use Rattle.std.specs.Prelude.{◌≤◌};
    ghost use Rattle.command_line.specs.declared.number.TheConstants.{PER_LIMIT};

    ghost view = { λ w. record { run = w.run; per = w.per } };

    ghost invariant = { λ w. (1 ≤ w.per) × (w.per ≤ PER_LIMIT) };
}

/// The words of a seek: those of a run, whose options are fewer, and the clocks to seek, in any
/// order: 1 to `CUTS` of them, each at most `CLOCK_LIMIT`.
#[derive(Drop)]
pub struct SeekWords<'a> {
    pub run: RunWords<'a>,
    pub clocks: Cuts,
}

impl<'a> Model for SeekWords<'a> {
    ghost use Rattle.command_line.specs.CommandValue.{SeekValue};

    ghost Value = { SeekValue };

    ghost use Rattle.command_line.specs.Clocks.{AreListed};

    ghost view = { λ w. record { run = w.run; clocks = w.clocks.items } };

    ghost invariant = { λ w. AreListed w.clocks.items };
}

/// A command.
#[derive(Drop)]
pub enum Command<'a> {
    /// Runs an image with a tape.
    Run(RunWords<'a>),
    /// Assembles two sources into an image.
    Asm(AsmWords<'a>),
    /// Debugs an image with a tape by a script.
    Debug(DebugWords<'a>),
    /// Shows a state.
    Show(&'a str),
    /// Runs the workload of a number.
    Soak(u64),
    /// Writes the samples of a run.
    Pcm(PcmWords<'a>),
    /// Writes the frames of a run, whose options are those of a run that stores nothing.
    Frames(RunWords<'a>),
    /// Seeks clocks in a run, with the same options.
    Seek(SeekWords<'a>),
    /// Writes the profile of a run, with the same options.
    Profile(RunWords<'a>),
}

/// The number of the words before the first that begins with two dashes.
fn count_arguments(words: &[String]) -> usize
    ensures { result ≡ length (take_while (λ word. not (is_dashed (string_bytes word))) words.now) }
{
    words
        .iter()
        .take_while(|word| !is_dashed(word.as_str()))
        .count()
}

/// The words before the first that begins with two dashes, and those from it on.
fn part(words: &[String]) -> (&[String], &[String])
    ensures arguments { map string_bytes result.0.now ≡ arguments_of (map string_bytes words.now) }
    ensures options { map string_bytes result.1.now ≡ options_after (map string_bytes words.now) }
{
    words.split_at(count_arguments(words))
}

/// The settings of a command's options.
#[inline(never)]
fn read_settings<'a>(verb: Verb, words: &'a [String]) -> Option<Settings<'a>>
    ensures settings { result ≡ settings_of verb (map string_bytes words.now) }
    ensures clocks { IfSome result AreClocks }
{
    let mut settings = Settings::new();
    let mut awaited: Option<Opt> = None;
    for word in words {
        let word = word.as_str();
        if let Some(option) = awaited {
            settings = settings.with_value(option, word)?;
            awaited = None;
        } else {
            let option = verb.option(word)?;
            if option.has_value() {
                awaited = Some(option);
            } else {
                settings = settings.with_flag(option)?;
            }
        }
    }
    if awaited.is_some() {
        return None;
    }
    Some(settings)
}

/// A command with its arguments and what its options say.
#[inline(never)]
fn build<'a>(verb: Verb, arguments: &'a [String], settings: Settings<'a>) -> Option<Command<'a>>
    requires { AreClocks settings }
    ensures command { option_map command_value result ≡ built verb (map string_bytes arguments.now) settings.entry }
    ensures clocks { IfSome result (λ command. HasClocks (command_value command)) }
{
    match (verb, arguments) {
        (Verb::Run, [image, tape]) => Some(Command::Run(RunWords::of(image, tape, settings)?)),
        (Verb::Asm, [processor, generator, image]) => Some(Command::Asm(AsmWords {
            processor: read_name(processor)?,
            generator: read_name(generator)?,
            image: read_name(image)?,
        })),
        (Verb::Debug, [image, tape, script]) => Some(Command::Debug(DebugWords {
            run: RunWords::of(image, tape, settings)?,
            script: read_name(script)?,
        })),
        (Verb::Show, [state]) => Some(Command::Show(read_name(state)?)),
        (Verb::Soak, [seed]) => Some(Command::Soak(read_number(seed.as_bytes())?)),
        (Verb::Pcm, [image, tape, per]) => Some(Command::Pcm(PcmWords {
            run: RunWords::of(image, tape, settings)?,
            per: read_per(per.as_bytes())?,
        })),
        (Verb::Frames, [image, tape]) => Some(Command::Frames(RunWords::of(
            image, tape, settings,
        )?)),
        (Verb::Seek, [image, tape, clocks]) => Some(Command::Seek(SeekWords {
            run: RunWords::of(image, tape, settings)?,
            clocks: read_clocks(clocks)?,
        })),
        (Verb::Profile, [image, tape]) => Some(Command::Profile(RunWords::of(
            image, tape, settings,
        )?)),
        _ => None,
    }
}

/// The command of the words of a command line, without the program's name. No caller takes it in:
/// its copies of a command, of 16 KB each, are off the stack when it returns.
#[inline(never)]
pub fn read_command<'a>(words: &'a [String]) -> Option<Command<'a>>
    ensures command { option_map command_value result ≡ command_of (map string_bytes words.now) }
    ensures clocks { IfSome result (λ command. HasClocks (command_value command)) }
{
    let [verb, words @ ..] = words else {
        return None;
    };
    let verb = Verb::of(verb.as_str())?;
    let (arguments, options) = part(words);
    let settings = read_settings(verb, options)?;
    build(verb, arguments, settings)
}
