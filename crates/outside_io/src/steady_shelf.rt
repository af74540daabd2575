//! A shelf that never fails.
ghost use Rattle.std.specs.Prelude.{◌≡◌, ◌≢◌, true, false, [], ◌∷◌, ◌++◌, OnOk, OnErr, IsOk, Err};
ghost use Rattle.outside_io.specs.Shelf.{Loads, LoadFaults, LoadAbsences};
ghost use Rattle.outside_io.specs.Steady.{known_files, after_steady_load};

use crate::answers::{Failed, Loaded, ShelfFault};
use crate::file_list::FileList;
use crate::first_bytes::copy_first;
use crate::outside::Shelf;
use board_base::OutOfMemory;
use std::alloc::Global;
use std::marker::Model;

/// States its files until its first store, and keeps no stores. Its count of faults is always 0.
#[derive(Drop)]
pub struct SteadyShelf {
    files: FileList,
    changed: bool,
    absences: u64,
}

impl Model for SteadyShelf {
    ghost use Rattle.outside_io.specs.Steady.{SteadyValue};

    ghost Value = { SteadyValue };

    ghost view = { λ s. record { files = s.files.files; changed = s.changed; absences = s.absences } };
}

impl SteadyShelf {
    /// A shelf with no files. It takes no memory yet.
    pub fn new(alloc: Global) -> SteadyShelf
        ensures { result ≡ record { files = []; changed = false; absences = 0 } }
    {
        SteadyShelf {
            files: FileList::new(alloc),
            changed: false,
            absences: 0,
        }
    }

    /// Puts these bytes under this name, in the place of what stands there. Any call may run out of
    /// memory.
    pub fn put(&mut self, name: &str, bytes: &[u8]) -> Result<(), OutOfMemory>
        ensures ok { OnOk result (self.new ≡ record self.old { files = self.old.files ++ (name.now, bytes.now) ∷ [] }) }
        ensures err { OnErr result (self.new ≡ self.old) }
    {
        self.files.put(name, bytes)?;
        Ok(())
    }
}

impl Shelf for SteadyShelf {
    ghost use Rattle.std.specs.Prelude.{None};

    ghost files = { λ s. known_files s.changed s.files };

    ghost stores = { λ _. None };

    ghost faults = { λ _. 0 };

    ghost absences = { λ s. s.absences };

    /// It fails only where memory runs out.
    fn load(&mut self, name: &str, limit: usize, into: &mut Vec<u8>) -> Result<Loaded, ShelfFault>
        requires { into.old.items ≡ [] }
        ensures content { Loads (known_files self.old.changed self.old.files) name.now limit result into.new.items }
        ensures files { known_files self.new.changed self.new.files ≡ known_files self.old.changed self.old.files }
        ensures cause { LoadFaults 0 0 result }
        ensures absences { LoadAbsences self.old.absences self.new.absences result }
        ensures after { self.new ≡ after_steady_load self.old result }
        ensures no_fault { result ≢ Err ShelfFault.Failed }
    {
        let Some(file) = self.files.content(name) else {
            self.absences = self.absences.saturating_add(1);
            return Ok(Loaded::Absent);
        };
        match copy_first(file, limit, into) {
            Ok(()) => Ok(Loaded::Found),
            Err(_) => Err(ShelfFault::OutOfMemory),
        }
    }

    /// It takes no memory, keeps nothing, and states no files from then on.
    fn store(&mut self, _name: &str, _bytes: &[u8]) -> Result<(), Failed>
        ensures no_fault { IsOk result }
        ensures after { self.new ≡ record self.old { changed = true } }
    {
        self.changed = true;
        Ok(())
    }
}
