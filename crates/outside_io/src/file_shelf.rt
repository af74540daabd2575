//! A shelf over the files of a runtime.
ghost use Rattle.std.specs.Prelude.{◌≡◌, ◌≤◌, [], ◌∷◌, Some, OnOk, OnErr, IfSome};
ghost use Rattle.outside_io.specs.Causes.{HasCause};
ghost use Rattle.outside_io.specs.FileCounts.{unknown_files, unknown_stores, after_file_load, after_file_store};
ghost use Rattle.outside_io.specs.Known.{grown};
ghost use Rattle.outside_io.specs.Shelf.{Loads, LoadFaults, LoadAbsences, KeepsOthers};

use crate::answers::{Failed, Loaded, ShelfFault};
use crate::outside::Shelf;
use crate::pieces::{read_opened, write_over};
use crate::replace::{Path, Replaced, replace};
use std::fs;
use std::fs::OpenOptions;
use std::marker::Model;
use std::rt::Files;

/// Files by their paths. It states nothing of their content, and takes no memory but for what is
/// loaded. A file that isn't found when it is opened to be loaded is an absence. Every other error
/// of a call is a fault. Contracts see it as its two counts.
#[derive(Drop)]
pub struct FileShelf<'a, R: Files> {
    rt: &'a R,
    process: u32,
    path: Path,
    faults: u64,
    absences: u64,
}

impl<'a, R: Files> Model for FileShelf<'a, R> {
    ghost use Rattle.outside_io.specs.FileCounts.{FileCounts};

    ghost Value = { FileCounts };

    ghost view = { λ s. record { faults = s.faults; absences = s.absences } };
}

impl<'a, R: Files> FileShelf<'a, R> {
    /// A shelf of the process number 0. It takes no memory.
    pub fn new(rt: &'a R) -> FileShelf<'a, R>
        ensures { result ≡ record { faults = 0; absences = 0 } }
    {
        FileShelf::with_process(rt, 0)
    }

    /// A shelf that creates its new files as `NAME.PROCESS-N.new`, so that several processes that
    /// store under one name don't try each other's names. It takes no memory.
    pub fn with_process(rt: &'a R, process: u32) -> FileShelf<'a, R>
        ensures { result ≡ record { faults = 0; absences = 0 } }
    {
        FileShelf {
            rt,
            process,
            path: Path::new(),
            faults: 0,
            absences: 0,
        }
    }

    /// The runtime whose files they are.
    pub(crate) fn runtime(&self) -> &'a R {
        self.rt
    }

    /// Counts a store that failed.
    pub(crate) fn count(&mut self, stored: Result<(), Failed>) -> Result<(), Failed>
        ensures same { result ≡ stored }
        ensures cause { HasCause self.old.faults self.new.faults result }
        ensures after { self.new ≡ after_file_store self.old result }
    {
        match stored {
            Ok(()) => Ok(()),
            Err(Failed) => {
                self.faults = self.faults.saturating_add(1);
                Err(Failed)
            }
        }
    }
}

impl<'a, R: Files> Shelf for FileShelf<'a, R> {
    ghost files = { λ _. unknown_files };

    ghost stores = { λ _. unknown_stores };

    ghost faults = { λ s. s.faults };

    ghost absences = { λ s. s.absences };

    /// A path to a folder, or one that may not be read, is a fault.
    fn load(&mut self, name: &str, limit: usize, into: &mut Vec<u8>) -> Result<Loaded, ShelfFault>
        requires { into.old.items ≡ [] }
        ensures content { Loads unknown_files name.now limit result into.new.items }
        ensures cause { LoadFaults self.old.faults self.new.faults result }
        ensures absences { LoadAbsences self.old.absences self.new.absences result }
        ensures after { self.new ≡ after_file_load self.old result }
    {
        match read_opened(fs::open(self.rt, name), limit, into) {
            Ok(Loaded::Found) => Ok(Loaded::Found),
            Ok(Loaded::Absent) => {
                self.absences = self.absences.saturating_add(1);
                Ok(Loaded::Absent)
            }
            Err(ShelfFault::Failed) => {
                self.faults = self.faults.saturating_add(1);
                Err(ShelfFault::Failed)
            }
            Err(ShelfFault::OutOfMemory) => Err(ShelfFault::OutOfMemory),
        }
    }

    /// A regular file, or a name that no file has, is replaced as a whole: after a signal at any
    /// moment the name has the old bytes or the new ones. A link, a pipe, a device, a file with
    /// other hard links or of another owner, and one in a folder that takes no new file, is written
    /// in place. A new file or a rename that fails for another reason, such as a full disk, leaves
    /// the old bytes. It doesn't wait for the disk.
    fn store(&mut self, name: &str, bytes: &[u8]) -> Result<(), Failed>
        ensures stored { OnOk result (unknown_stores ≡ grown unknown_stores ((name.now, bytes.now) ∷ [])) }
        ensures not_stored { OnErr result (unknown_stores ≡ unknown_stores) }
        ensures file { OnOk result (IfSome unknown_files (λ now. now name.now ≡ Some bytes.now)) }
        ensures others { KeepsOthers unknown_files unknown_files name.now }
        ensures cause { HasCause self.old.faults self.new.faults result }
        ensures absences { self.old.absences ≤ self.new.absences }
        ensures after { self.new ≡ after_file_store self.old result }
    {
        let stored = write_file(self.rt, self.process, &mut self.path, name, bytes);
        self.count(stored)
    }
}

/// Replaces the file, or writes over it in place.
fn write_file<R: Files>(
    rt: &R,
    process: u32,
    path: &mut Path,
    name: &str,
    bytes: &[u8],
) -> Result<(), Failed> {
    match replace(rt, process, path, name, bytes)? {
        Replaced::Renamed => Ok(()),
        Replaced::NotPossible => {
            let opened = OpenOptions::new().write(true).create(true).open(rt, name);
            write_over(&mut opened.map_err(|_| Failed)?, bytes)
        }
    }
}
