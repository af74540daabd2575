//! A shelf in memory that states what it holds, and fails where a test wants it to.
ghost use Rattle.std.specs.Prelude.{◌≡◌, ◌≤◌, ◌↔◌, [], ◌∷◌, ◌++◌, OnOk, OnErr, IfOk, IfSome, IsErr, Some, Err};
ghost use Rattle.outside_io.specs.Causes.{HasCause};
ghost use Rattle.outside_io.specs.Content.{content_of};
ghost use Rattle.outside_io.specs.Known.{grown};
ghost use Rattle.outside_io.specs.Memory.{empty_shelf, NextFails, StoreFails, after_load, after_store};
ghost use Rattle.outside_io.specs.Shelf.{Loads, LoadFaults, LoadAbsences, KeepsOthers};

use crate::answers::{Failed, Loaded, ShelfFault};
use crate::file_list::FileList;
use crate::first_bytes::copy_first;
use crate::outside::Shelf;
use crate::stored::Stored;
use board_base::OutOfMemory;
use std::alloc::Global;
use std::marker::Model;

/// Files that were put, and the stores that were made in order. A store takes no memory: all of it
/// is taken in `new`.
#[derive(Drop)]
pub struct MemoryShelf {
    files: FileList,
    stores: FileList,
    places: usize,
    room: usize,
    fail: Vec<u64>,
    calls: u64,
    faults: u64,
    absences: u64,
}

impl Model for MemoryShelf {
    ghost use Rattle.std.specs.Prelude.{◌≡◌, ◌+◌, length};
    ghost use Rattle.outside_io.specs.Memory.{ShelfValue};

    ghost Value = { ShelfValue };

    ghost view = { λ s. record {
      files = s.files.files;
      stores = s.stores.files;
      places = s.places;
      room = s.room;
      fail = s.fail.items;
      calls = s.calls;
      faults = s.faults;
      absences = s.absences;
    } };

    ghost invariant = { λ s. (s.files.left ≡ s.stores.left) × (length s.stores.files + s.stores.left ≡ s.places)
        × (s.files.room ≡ s.room) × (s.stores.room ≡ s.room) };
}

impl MemoryShelf {
    /// An empty shelf with memory for `stores` stores of up to `room` bytes, names counted in. Of
    /// its calls of `load` and `store`, the first being number 1, those in `fail` go wrong.
    pub fn new(
        alloc: Global,
        stores: usize,
        room: usize,
        fail: &[u64],
    ) -> Result<MemoryShelf, OutOfMemory>
        ensures { IfOk result (λ shelf. shelf ≡ empty_shelf stores room fail.now) }
    {
        Ok(MemoryShelf {
            files: FileList::with_room(alloc, stores, room)?,
            stores: FileList::with_room(alloc, stores, room)?,
            places: stores,
            room,
            fail: Vec::from_slice(alloc, fail)?,
            calls: 0,
            faults: 0,
            absences: 0,
        })
    }

    /// Puts these bytes under this name, in the place of what stands there. It is none of the
    /// numbered calls and no store. Any call may run out of memory.
    pub fn put(&mut self, name: &str, bytes: &[u8]) -> Result<(), OutOfMemory>
        ensures ok { OnOk result (self.new ≡ record self.old { files = self.old.files ++ (name.now, bytes.now) ∷ [] }) }
        ensures err { OnErr result (self.new ≡ self.old) }
    {
        self.files.put(name, bytes)?;
        Ok(())
    }

    /// The stores, the newest last.
    pub fn stores(&self) -> &[Stored]
        ensures { result.now ≡ self.now.stores }
    {
        self.stores.files()
    }
}

impl Shelf for MemoryShelf {
    ghost files = { λ s. Some (content_of s.files) };

    ghost stores = { λ s. Some s.stores };

    ghost faults = { λ s. s.faults };

    ghost absences = { λ s. s.absences };

    /// After an `Err` nothing was put into `into`.
    fn load(&mut self, name: &str, limit: usize, into: &mut Vec<u8>) -> Result<Loaded, ShelfFault>
        requires { into.old.items ≡ [] }
        ensures content { Loads (Some (content_of self.old.files)) name.now limit result into.new.items }
        ensures files { Some (content_of self.new.files) ≡ Some (content_of self.old.files) }
        ensures stores { Some self.new.stores ≡ Some self.old.stores }
        ensures cause { LoadFaults self.old.faults self.new.faults result }
        ensures absences { LoadAbsences self.old.absences self.new.absences result }
        ensures fails { (result ≡ Err ShelfFault.Failed) ↔ NextFails self.old }
        ensures after { self.new ≡ after_load self.old result }
        ensures nothing { OnErr result (into.new.items ≡ []) }
    {
        self.calls = self.calls.saturating_add(1);
        if self.fail.contains(&self.calls) {
            self.faults = self.faults.saturating_add(1);
            return Err(ShelfFault::Failed);
        }
        let Some(file) = self.files.content(name) else {
            self.absences = self.absences.saturating_add(1);
            return Ok(Loaded::Absent);
        };
        match copy_first(file, limit, into) {
            Ok(()) => Ok(Loaded::Found),
            Err(_) => Err(ShelfFault::OutOfMemory),
        }
    }

    /// After an `Err` the files and the stores are as before.
    #[tactic(auto, using(crate::proofs::ContentLaws::content_kept, crate::proofs::ContentLaws::content_other))]
    fn store(&mut self, name: &str, bytes: &[u8]) -> Result<(), Failed>
        ensures stored { OnOk result (Some self.new.stores ≡ grown (Some self.old.stores) ((name.now, bytes.now) ∷ [])) }
        ensures not_stored { OnErr result (Some self.new.stores ≡ Some self.old.stores) }
        ensures file { OnOk result (IfSome (Some (content_of self.new.files)) (λ now. now name.now ≡ Some bytes.now)) }
        ensures others { KeepsOthers (Some (content_of self.old.files)) (Some (content_of self.new.files)) name.now }
        ensures cause { HasCause self.old.faults self.new.faults result }
        ensures absences { self.old.absences ≤ self.new.absences }
        ensures fails { IsErr result ↔ StoreFails self.old name.now bytes.now }
        ensures after { self.new ≡ after_store self.old (name.now, bytes.now) result }
    {
        self.calls = self.calls.saturating_add(1);
        if self.fail.contains(&self.calls)
            || name.len() + bytes.len() > self.room
            || self.stores.is_full()
        {
            self.faults = self.faults.saturating_add(1);
            return Err(Failed);
        }
        self.files.keep(name, bytes);
        self.stores.keep(name, bytes);
        Ok(())
    }
}
