//! What a command did, held against what its row wants.

use crate::content::{after_content, content_bytes, decimal};
use crate::folder::Folder;
use crate::lines::{Word, first_word, word_of};
use crate::report::Report;
use crate::stopped::Stopped;
use crate::sum::cksum;
use crate::trial::Trial;
use outside_io::Stored;
use std::alloc::Global;

/// The files that a command leaves, besides its stores.
#[derive(Drop)]
pub struct Kept<'t> {
    /// The numbers of stores, from 0 on, each with the name of its file.
    pub stores: Vec<(&'t str, usize)>,
    /// The name under which the text stays.
    pub text: Option<&'t str>,
}

/// How far what a command did was held against what is wanted.
#[derive(Drop)]
pub struct Comparison<'t, 'f, 'c> {
    pub alloc: Global,
    command: &'t str,
    folder: &'f Folder,
    trial: &'c Trial,
    /// The text that comes next.
    rest: &'c [u8],
    /// How many bytes of text come before each store.
    ends: Vec<usize>,
    kept: Kept<'t>,
    status: usize,
    note: Option<&'t str>,
}

/// Whether a note is a line, or begins with what comes before three dots.
fn is_note(note: &[u8], line: &str) -> bool {
    let note = str::from_utf8(note).unwrap_or("");
    match line.strip_suffix("...") {
        Some(front) => note.starts_with(front),
        None => note.strip_suffix("\n") == Some(line),
    }
}

/// So many bytes from an offset on, or all where there is none.
fn bytes_from(bytes: &[u8], from: Option<usize>, count: usize) -> &[u8] {
    match from {
        Some(from) => bytes.get(from..from.saturating_add(count)).unwrap_or(&[]),
        None => bytes,
    }
}

/// Adds what was wanted of a text, as lines, and what came.
fn add_text(
    alloc: Global,
    command: &str,
    content: &[&str],
    came: &[u8],
    report: &mut Report,
) -> Result<(), Stopped> {
    let mut wanted = String::new(alloc);
    for line in content {
        wanted.push_str("\n")?;
        wanted.push_str(line)?;
    }
    report.add_bytes(command, "the text", wanted.as_bytes(), came)
}

impl<'t, 'f, 'c> Comparison<'t, 'f, 'c> {
    /// Nothing was compared yet.
    pub fn new(
        alloc: Global,
        command: &'t str,
        folder: &'f Folder,
        trial: &'c Trial,
    ) -> Comparison<'t, 'f, 'c> {
        Comparison {
            alloc,
            command,
            folder,
            trial,
            rest: trial.out.bytes(),
            ends: Vec::new(alloc),
            kept: Kept {
                stores: Vec::new(alloc),
                text: None,
            },
            status: 0,
            note: None,
        }
    }

    /// What stays as files.
    pub fn into_kept(self) -> Kept<'t> {
        self.kept
    }

    /// How many bytes of text come before each store.
    pub fn ends(&self) -> &[usize] {
        self.ends.as_slice()
    }

    /// The text goes on with a content.
    fn text(&mut self, content: &[&str], report: &mut Report) -> Result<(), Stopped> {
        match after_content(self.alloc, self.folder, content, self.rest)? {
            Some(rest) => {
                self.rest = rest;
                Ok(())
            }
            None => {
                let came = self.rest;
                self.rest = &[];
                add_text(self.alloc, self.command, content, came, report)
            }
        }
    }

    /// The whole text has this sum and this length.
    fn sum(&mut self, wanted: &str, report: &mut Report) -> Result<(), Stopped> {
        let text = self.trial.out.bytes();
        self.rest = &[];
        let came = format!(in self.alloc; "{} {}", cksum(text), text.len())?;
        if came.as_str() == wanted {
            return Ok(());
        }
        report.add_bytes(
            self.command,
            "the sum of the text",
            wanted.as_bytes(),
            came.as_bytes(),
        )
    }

    /// The store that was compared last.
    fn last_store(&self) -> Option<&'c Stored> {
        let place = self.ends.len().checked_sub(1)?;
        self.trial.shelf.stores().get(place)
    }

    /// The next store is under this name.
    fn store(&mut self, name: &str, report: &mut Report) -> Result<(), Stopped> {
        let end = self.trial.out.bytes().len().saturating_sub(self.rest.len());
        self.ends.push(end)?;
        let came = match self.last_store() {
            Some(store) => store.name(),
            None => "",
        };
        if came == name {
            return Ok(());
        }
        report.add_bytes(
            self.command,
            "the name of a store",
            name.as_bytes(),
            came.as_bytes(),
        )
    }

    /// The last store has these bytes from an offset on, and no others where there is none.
    fn stored(
        &self,
        from: Option<usize>,
        wanted: &[u8],
        report: &mut Report,
    ) -> Result<(), Stopped> {
        let Some(store) = self.last_store() else {
            return Ok(());
        };
        let came = bytes_from(store.bytes(), from, wanted.len());
        if came == wanted {
            return Ok(());
        }
        report.add_difference(self.command, "the bytes of a store", wanted, came)
    }

    /// The last store has the bytes of a content.
    fn stored_content(
        &self,
        from: Option<usize>,
        content: &[&str],
        report: &mut Report,
    ) -> Result<(), Stopped> {
        let wanted = content_bytes(self.alloc, content)?;
        self.stored(from, &wanted, report)
    }

    /// The next store has a name, and the bytes of a content where there is one.
    fn whole_store(
        &mut self,
        name: &str,
        content: &[&str],
        report: &mut Report,
    ) -> Result<(), Stopped> {
        self.store(name, report)?;
        if content.is_empty() {
            return Ok(());
        }
        self.stored_content(None, content, report)
    }

    /// The last store stays as a file.
    fn keep(&mut self, name: &'t str) -> Result<(), Stopped> {
        let place = self.ends.len().saturating_sub(1);
        self.kept.stores.push((name, place))?;
        Ok(())
    }

    /// A part of what is wanted of the stores: its word, the rest of its first line, and its
    /// content.
    fn part_of_stores(
        &mut self,
        word: Word,
        rest: &'t str,
        content: &[&str],
        report: &mut Report,
    ) -> Result<(), Stopped> {
        match word {
            Word::Store => self.whole_store(rest, content, report),
            Word::At => self.stored_content(Some(decimal(rest)?), content, report),
            Word::Same => self.stored(None, self.folder.bytes(rest), report),
            Word::Keep => self.keep(rest),
            _ => Err(Stopped::Form),
        }
    }

    /// What the step says of the end: the status, the note, and the name under which the text
    /// stays.
    fn part_of_end(&mut self, word: Word, rest: &'t str) -> Result<(), Stopped> {
        match word {
            Word::Status => self.status = decimal(rest)?,
            Word::Note => self.note = Some(rest),
            Word::Text => self.kept.text = Some(rest),
            _ => {}
        }
        Ok(())
    }

    /// A part of what is wanted: its first line, and its content.
    pub fn part(
        &mut self,
        line: &'t str,
        content: &[&str],
        report: &mut Report,
    ) -> Result<(), Stopped> {
        let (_, rest) = first_word(line);
        let word = word_of(line);
        match word {
            Word::Command | Word::Out => self.text(content, report),
            Word::Sum => self.sum(rest, report),
            Word::Fail | Word::Status | Word::Note | Word::Text => self.part_of_end(word, rest),
            _ => self.part_of_stores(word, rest, content, report),
        }
    }

    /// Nothing else came than the text and the stores that were compared.
    fn end_stores(&self, report: &mut Report) -> Result<(), Stopped> {
        if !self.rest.is_empty() {
            report.add_bytes(self.command, "the end of the text", b"", self.rest)?;
        }
        let count = self.trial.shelf.stores().len();
        if count == self.ends.len() {
            return Ok(());
        }
        report.add_numbers(self.command, "the stores", self.ends.len(), count)
    }

    /// The status is the one that is wanted.
    fn end_status(&self, report: &mut Report) -> Result<(), Stopped> {
        let status = usize::from(self.trial.status);
        if status == self.status {
            return Ok(());
        }
        report.add_numbers(self.command, "the status", self.status, status)
    }

    /// The note is the one that is wanted.
    fn end_note(&self, report: &mut Report) -> Result<(), Stopped> {
        let note = self.trial.notes.bytes();
        let is_wanted = match self.note {
            Some(line) => is_note(note, line),
            None => note.is_empty(),
        };
        if is_wanted {
            return Ok(());
        }
        let wanted = self.note.unwrap_or("").as_bytes();
        report.add_bytes(self.command, "the note", wanted, note)
    }

    /// All that is wanted was compared: nothing else came.
    pub fn end(&self, report: &mut Report) -> Result<(), Stopped> {
        self.end_stores(report)?;
        self.end_status(report)?;
        self.end_note(report)
    }
}
