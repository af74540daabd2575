//! A shelf over the files of a runtime, one of which may be the output.
ghost use Rattle.std.specs.Prelude.{◌≡◌, ◌≤◌, [], ◌∷◌, Some, OnOk, OnErr, IfSome};
ghost use Rattle.outside_io.specs.Causes.{HasCause};
ghost use Rattle.outside_io.specs.FileCounts.{unknown_files, unknown_stores, after_file_load, after_file_store};
ghost use Rattle.outside_io.specs.Known.{grown};
ghost use Rattle.outside_io.specs.Shelf.{Loads, LoadFaults, LoadAbsences, KeepsOthers};

use crate::answers::{Failed, Loaded, ShelfFault};
use crate::file_shelf::FileShelf;
use crate::outside::Shelf;
use crate::pieces::write_whole;
use std::fs;
use std::io::Write;
use std::marker::Model;
use std::os::unix::fs::MetadataExt;
use std::rt::Files;

/// The name that leads to the output of a process (Linux).
const OUTPUT: &str = "/dev/stdout";

/// A `FileShelf` beside the output of the process. A store under a name that leads to the regular
/// file that the output goes to, as `/dev/stdout` behind `> log` does, becomes a part of the
/// output, so that it overwrites nothing of it. Contracts see it as the counts of the `FileShelf`.
#[derive(Drop)]
pub struct OutputShelf<'a, R: Files, W: Write + Drop> {
    files: FileShelf<'a, R>,
    output: W,
}

impl<'a, R: Files, W: Write + Drop> Model for OutputShelf<'a, R, W> {
    ghost use Rattle.outside_io.specs.FileCounts.{FileCounts};

    ghost Value = { FileCounts };

    ghost view = { λ s. s.files };
}

impl<'a, R: Files, W: Write + Drop> OutputShelf<'a, R, W> {
    /// These files beside this output, which is the process's own. It takes no memory.
    pub fn new(files: FileShelf<'a, R>, output: W) -> OutputShelf<'a, R, W>
        ensures { result ≡ files.entry }
    {
        OutputShelf { files, output }
    }
}

impl<'a, R: Files, W: Write + Drop> Shelf for OutputShelf<'a, R, W> {
    ghost files = { λ _. unknown_files };

    ghost stores = { λ _. unknown_stores };

    ghost faults = { λ s. s.faults };

    ghost absences = { λ s. s.absences };

    /// As `FileShelf` loads.
    fn load(&mut self, name: &str, limit: usize, into: &mut Vec<u8>) -> Result<Loaded, ShelfFault>
        requires { into.old.items ≡ [] }
        ensures content { Loads unknown_files name.now limit result into.new.items }
        ensures cause { LoadFaults self.old.faults self.new.faults result }
        ensures absences { LoadAbsences self.old.absences self.new.absences result }
        ensures after { self.new ≡ after_file_load self.old result }
    {
        self.files.load(name, limit, into)
    }

    /// As `FileShelf` stores, or into the output.
    fn store(&mut self, name: &str, bytes: &[u8]) -> Result<(), Failed>
        ensures stored { OnOk result (unknown_stores ≡ grown unknown_stores ((name.now, bytes.now) ∷ [])) }
        ensures not_stored { OnErr result (unknown_stores ≡ unknown_stores) }
        ensures file { OnOk result (IfSome unknown_files (λ now. now name.now ≡ Some bytes.now)) }
        ensures others { KeepsOthers unknown_files unknown_files name.now }
        ensures cause { HasCause self.old.faults self.new.faults result }
        ensures absences { self.old.absences ≤ self.new.absences }
        ensures after { self.new ≡ after_file_store self.old result }
    {
        if is_output(self.files.runtime(), name) {
            let written = write_whole(&mut self.output, bytes).map_err(|_| Failed);
            return self.files.count(written);
        }
        self.files.store(name, bytes)
    }
}

/// Whether a name leads to the regular file that the output goes to.
fn is_output<R: Files>(rt: &R, name: &str) -> bool {
    let Ok(output) = fs::metadata(rt, OUTPUT) else {
        return false;
    };
    let Ok(file) = fs::metadata(rt, name) else {
        return false;
    };
    output.is_file() && output.dev() == file.dev() && output.ino() == file.ino()
}
