//! Each I/O call of a command is made to fail in turn.

use crate::emulator::Emulator;
use crate::report::Report;
use crate::stopped::Stopped;
use crate::trial::{Command, Faults, NO_FAULT, Trial};
use outside_io::Stored;

/// The note on an I/O call that failed.
const OUTSIDE: &[u8] = b"gravitar: outside fault\n";

/// The most calls of a kind that a command of the suite makes.
const MOST_CALLS: u64 = 10_000;

/// The calls whose fault ends a command.
#[derive(Clone, Copy)]
pub enum Kind {
    /// Loads and stores.
    Shelf,
    /// Writes of the output.
    Output,
}

impl Kind {
    /// One call fails, and one write of the notes, where its number isn't 0.
    pub fn faults(self, call: u64, notes: u64) -> Faults {
        let mut faults = NO_FAULT;
        faults.notes = notes;
        match self {
            Kind::Shelf => faults.shelf = call,
            Kind::Output => faults.out = call,
        }
        faults
    }

    /// Its name in a report.
    fn name(self) -> &'static str {
        match self {
            Kind::Shelf => "shelf",
            Kind::Output => "output",
        }
    }
}

/// Whether two stores have one name and the same bytes.
fn is_same(made: &Stored, whole: &Stored) -> bool {
    made.name() == whole.name() && made.bytes() == whole.bytes()
}

/// Whether the stores that were made are the first of those of the whole.
fn are_first(made: &[Stored], whole: &[Stored]) -> bool {
    for (made, whole) in made.iter().zip(whole) {
        if !is_same(made, whole) {
            return false;
        }
    }
    made.len() <= whole.len()
}

/// Whether so many stores come after the text in front of them, and so many bytes of text before
/// the next store. `ends` are the bytes of text in front of each store.
fn are_in_order(ends: &[usize], stores: usize, text: usize) -> bool {
    for (i, end) in ends.iter().enumerate() {
        let is_made = i < stores;
        if is_made && text < *end || !is_made && *end < text {
            return false;
        }
    }
    true
}

/// A write of the notes fails.
fn note_fault(call: u64) -> Faults {
    let mut faults = NO_FAULT;
    faults.notes = call;
    faults
}

/// The output has only so much room.
fn small_output(room: usize) -> Faults {
    let mut faults = NO_FAULT;
    faults.room = room;
    faults
}

/// A command that was done without a fault.
#[derive(Drop)]
pub struct Whole<'w, 'c, E: Emulator> {
    pub command: &'w Command<'c, E>,
    pub trial: &'w Trial,
    /// How many bytes of text come before each store.
    pub ends: &'w [usize],
}

impl<E: Emulator> Whole<'_, '_, E> {
    /// Whether a first part of the whole was done, and not all of it.
    fn is_part(&self, trial: &Trial) -> bool {
        let (text, all) = (trial.out.bytes(), self.trial.out.bytes());
        let (made, whole) = (trial.shelf.stores(), self.trial.shelf.stores());
        let is_less = text.len() < all.len() || made.len() < whole.len() || whole.is_empty();
        is_less
            && all.starts_with(text)
            && are_first(made, whole)
            && are_in_order(self.ends, made.len(), text.len())
    }

    /// Whether a trial was ended by a fault.
    fn is_stopped(&self, trial: &Trial, note: &[u8]) -> bool {
        trial.status == 6 && trial.notes.bytes() == note && self.is_part(trial)
    }

    /// Whether a trial did all of the whole, but for its note.
    fn is_all(&self, trial: &Trial) -> bool {
        let (made, whole) = (trial.shelf.stores(), self.trial.shelf.stores());
        trial.status == self.trial.status
            && trial.out.bytes() == self.trial.out.bytes()
            && made.len() == whole.len()
            && are_first(made, whole)
    }

    /// Whether a trial did all of the whole, with a first part of its note.
    fn is_all_but_note(&self, trial: &Trial) -> bool {
        self.is_all(trial) && self.trial.notes.bytes().starts_with(trial.notes.bytes())
    }

    /// Whether a trial did all of the whole.
    fn is_whole(&self, trial: &Trial) -> bool {
        self.is_all(trial) && trial.notes.bytes() == self.trial.notes.bytes()
    }

    /// Whether a fault ends the command where its note can't be written either.
    fn is_stopped_in_silence(&self, kind: Kind, call: u64) -> Result<bool, Stopped> {
        let trial = self.command.run(kind.faults(call, 1))?;
        Ok(self.is_stopped(&trial, b""))
    }

    /// Whether a trial with a call that fails was ended by it, or did all where it made no such
    /// call.
    fn is_right(&self, kind: Kind, call: u64, trial: &Trial) -> Result<bool, Stopped> {
        if trial.status != 6 {
            return Ok(self.is_whole(trial));
        }
        if !self.is_stopped(trial, OUTSIDE) {
            return Ok(false);
        }
        self.is_stopped_in_silence(kind, call)
    }

    /// Does the command with a call that fails, and returns whether there was such a call.
    fn fails(&self, kind: Kind, call: u64, report: &mut Report) -> Result<bool, Stopped> {
        let trial = self.command.run(kind.faults(call, 0))?;
        if !self.is_right(kind, call, &trial)? {
            report.add_call(self.command.line, kind.name(), call)?;
        }
        Ok(trial.status == 6)
    }

    /// Each call of a kind fails in turn.
    fn each(&self, kind: Kind, report: &mut Report) -> Result<(), Stopped> {
        for call in 1..MOST_CALLS {
            if !self.fails(kind, call, report)? {
                return Ok(());
            }
        }
        report.add(self.command.line, "the calls have no end")
    }

    /// A write of the notes fails, which changes nothing else. Returns whether there was such a
    /// write.
    fn fails_at_note(&self, call: u64, report: &mut Report) -> Result<bool, Stopped> {
        let trial = self.command.run(note_fault(call))?;
        if !self.is_all_but_note(&trial) {
            report.add_call(self.command.line, "notes", call)?;
        }
        Ok(trial.notes.bytes().len() != self.trial.notes.bytes().len())
    }

    /// Each write of the notes fails in turn.
    fn notes(&self, report: &mut Report) -> Result<(), Stopped> {
        for call in 1..MOST_CALLS {
            if !self.fails_at_note(call, report)? {
                return Ok(());
            }
        }
        report.add(self.command.line, "the notes have no end")
    }

    /// An output that is a byte too small is a fault.
    fn full(&self, report: &mut Report) -> Result<(), Stopped> {
        let Some(room) = self.trial.out.bytes().len().checked_sub(1) else {
            return Ok(());
        };
        let trial = self.command.run(small_output(room))?;
        if self.is_stopped(&trial, OUTSIDE) {
            return Ok(());
        }
        report.add(self.command.line, "an output that is a byte too small")
    }

    /// Each call of the shelf, of the output and of the notes fails in turn.
    pub fn check(&self, report: &mut Report) -> Result<(), Stopped> {
        self.each(Kind::Shelf, report)?;
        self.each(Kind::Output, report)?;
        self.notes(report)?;
        self.full(report)
    }
}
