//! The rows of a suite.

use crate::comparison::{Comparison, Kept};
use crate::content::{content_bytes, decimal};
use crate::emulator::Emulator;
use crate::failures::{Kind, Whole};
use crate::folder::Folder;
use crate::lines::{Level, Word, first_word, pieces, word_of};
use crate::report::Report;
use crate::stopped::Stopped;
use crate::trial::{Command, Faults, NO_FAULT, Trial};
use crate::words::read_words;
use std::alloc::Global;

/// A row under way.
#[derive(Drop)]
struct Row<'e, E: Emulator> {
    alloc: Global,
    emulator: &'e E,
    folder: Folder,
    report: Report,
    /// Whether the calls of its commands are made to fail.
    fails: bool,
}

/// Holds what a command did against the parts of its step.
fn compare<'t>(
    step: &[&'t str],
    comparison: &mut Comparison<'t, '_, '_>,
    report: &mut Report,
) -> Result<(), Stopped> {
    for part in &pieces(comparison.alloc, step, Level::Part)? {
        if let Some((head, content)) = part.split_first() {
            comparison.part(head, content, report)?;
        }
    }
    comparison.end(report)
}

/// A name and a number after it.
fn name_and_number(rest: &str) -> Result<(&str, usize), Stopped> {
    let (name, number) = rest.split_once(' ').ok_or(Stopped::Form)?;
    Ok((name, decimal(number)?))
}

/// The call that fails, by what comes after `fail`.
fn read_fault(rest: &str) -> Result<Faults, Stopped> {
    let (kind, number) = name_and_number(rest)?;
    let call = number as u64;
    match kind {
        "out" => Ok(Kind::Output.faults(call, 0)),
        "shelf" => Ok(Kind::Shelf.faults(call, 0)),
        _ => Err(Stopped::Form),
    }
}

/// The call that fails in a command, where its step has such a line.
fn fault_of(step: &[&str]) -> Result<Option<Faults>, Stopped> {
    for line in step {
        if matches!(word_of(line), Word::Fail) {
            let (_, rest) = first_word(line);
            return Ok(Some(read_fault(rest)?));
        }
    }
    Ok(None)
}

/// Compares what a command did with what its step wants, and makes its I/O calls fail where
/// `fails` says so.
fn look_at<'t, E: Emulator>(
    command: &Command<'_, E>,
    line: &'t str,
    step: &[&'t str],
    trial: &Trial,
    fails: bool,
    report: &mut Report,
) -> Result<Kept<'t>, Stopped> {
    let mut comparison = Comparison::new(command.alloc, line, command.folder, trial);
    compare(step, &mut comparison, report)?;
    if fails && report.text().is_empty() {
        let whole = Whole {
            command,
            trial,
            ends: comparison.ends(),
        };
        whole.check(report)?;
    }
    Ok(comparison.into_kept())
}

/// Puts the files that a command leaves into a folder.
fn keep(folder: &mut Folder, trial: &Trial, kept: &Kept<'_>) -> Result<(), Stopped> {
    let stores = trial.shelf.stores();
    folder.keep(stores)?;
    folder.keep_as(stores, kept.stores.as_slice())?;
    match kept.text {
        Some(name) => folder.copy_in(name, trial.out.bytes()),
        None => Ok(()),
    }
}

impl<E: Emulator> Row<'_, E> {
    /// Does a command, and looks at what it did. Where a call of it is to fail, the folder stays as
    /// it is.
    fn command<'t>(&mut self, line: &'t str, step: &[&'t str]) -> Result<(), Stopped> {
        let words = read_words(self.alloc, line)?;
        let faults = fault_of(step)?;
        let command = Command {
            alloc: self.alloc,
            emulator: self.emulator,
            line,
            words: &words,
            folder: &self.folder,
        };
        let trial = command.run(faults.unwrap_or(NO_FAULT))?;
        let fails = self.fails && faults.is_none();
        let kept = look_at(&command, line, step, &trial, fails, &mut self.report)?;
        if faults.is_some() {
            return Ok(());
        }
        keep(&mut self.folder, &trial, &kept)
    }

    /// Puts a file with the bytes of a content.
    fn put(&mut self, name: &str, content: &[&str]) -> Result<(), Stopped> {
        let bytes = content_bytes(self.alloc, content)?;
        self.folder.put(name, bytes)
    }

    /// Puts the bytes of a content over a file's.
    fn patch(&mut self, rest: &str, content: &[&str]) -> Result<(), Stopped> {
        let (name, offset) = name_and_number(rest)?;
        let bytes = content_bytes(self.alloc, content)?;
        self.folder.patch(name, offset, &bytes)
    }

    /// Makes a file longer or shorter.
    fn set_length(&mut self, rest: &str) -> Result<(), Stopped> {
        let (name, length) = name_and_number(rest)?;
        self.folder.set_length(name, length)
    }

    /// Copies a file.
    fn copy(&mut self, rest: &str) -> Result<(), Stopped> {
        let (from, to) = rest.split_once(' ').ok_or(Stopped::Form)?;
        let bytes = Vec::from_slice(self.alloc, self.folder.bytes(from))?;
        self.folder.put(to, bytes)
    }

    /// Does a step: a file, a change of one, or a command.
    fn step<'t>(
        &mut self,
        head: &'t str,
        content: &[&'t str],
        step: &[&'t str],
    ) -> Result<(), Stopped> {
        let (_, rest) = first_word(head);
        match word_of(head) {
            Word::Row | Word::Given => Ok(()),
            Word::Command => self.command(rest, step),
            Word::File => self.put(rest, content),
            Word::Patch => self.patch(rest, content),
            Word::Length => self.set_length(rest),
            Word::Copy => self.copy(rest),
            _ => Err(Stopped::Form),
        }
    }

    /// Does the steps of what other rows begin with.
    fn begin(&mut self, given: &[&str]) -> Result<(), Stopped> {
        for step in &pieces(self.alloc, given, Level::Step)? {
            if let Some((head, content)) = step.split_first() {
                self.step(head, content, step)?;
            }
        }
        Ok(())
    }

    /// Does the steps under a name, without calls that fail.
    fn with(&mut self, blocks: &[&[&str]], name: &str) -> Result<(), Stopped> {
        let fails = self.fails;
        self.fails = false;
        self.begin(given(blocks, name)?)?;
        self.fails = fails;
        Ok(())
    }

    /// Does a step of a row.
    fn row_step(&mut self, blocks: &[&[&str]], step: &[&str]) -> Result<(), Stopped> {
        let Some((head, content)) = step.split_first() else {
            return Ok(());
        };
        match word_of(head) {
            Word::With => {
                let (_, name) = first_word(head);
                self.with(blocks, name)
            }
            Word::Once => {
                self.fails = false;
                Ok(())
            }
            _ => self.step(head, content, step),
        }
    }
}

/// The steps under a name that rows begin with.
fn given<'l, 't>(blocks: &[&'l [&'t str]], name: &str) -> Result<&'l [&'t str], Stopped> {
    for block in blocks {
        if let Some(head) = block.first() {
            let (word, rest) = first_word(head);
            if word == "given" && rest == name {
                return Ok(block);
            }
        }
    }
    Err(Stopped::Form)
}

/// Does a row of a suite, and returns what differs.
pub fn run_row<E: Emulator>(
    alloc: Global,
    emulator: &E,
    blocks: &[&[&str]],
    block: &[&str],
) -> Result<Report, Stopped> {
    let mut row = Row {
        alloc,
        emulator,
        folder: Folder::new(alloc),
        report: Report::new(alloc),
        fails: true,
    };
    for step in &pieces(alloc, block, Level::Step)? {
        row.row_step(blocks, step)?;
    }
    Ok(row.report)
}
