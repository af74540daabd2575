//! A command that is done over a folder, with the calls that fail.

use crate::emulator::Emulator;
use crate::folder::Folder;
use crate::stopped::Stopped;
use outside_io::{MemoryShelf, MemorySink};
use std::alloc::Global;

/// The stores of a command, and the bytes of one with its name, that a shelf has room for.
const STORES: usize = 16;

const STORE_ROOM: usize = 43_200;

/// The bytes that an output takes, and those that the notes take.
const TEXT_ROOM: usize = 8_388_608;

const NOTE_ROOM: usize = 1000;

/// The call of the shelf, the write of the output and the write of the notes that fail, each
/// counted from 1 (0 is none), and how many bytes the output takes.
#[derive(Clone, Copy)]
pub struct Faults {
    pub shelf: u64,
    pub out: u64,
    pub notes: u64,
    pub room: usize,
}

/// Nothing fails.
pub const NO_FAULT: Faults = Faults {
    shelf: 0,
    out: 0,
    notes: 0,
    room: TEXT_ROOM,
};

/// What a command did.
#[derive(Drop)]
pub struct Trial {
    pub status: u8,
    pub shelf: MemoryShelf,
    pub out: MemorySink,
    pub notes: MemorySink,
}

/// A shelf with the files of a folder.
fn shelf_of(alloc: Global, folder: &Folder, fail: u64) -> Result<MemoryShelf, Stopped> {
    let mut shelf = MemoryShelf::new(alloc, STORES, STORE_ROOM, &[fail])?;
    folder.fill(&mut shelf)?;
    Ok(shelf)
}

/// A command over the files of a folder.
#[derive(Drop)]
pub struct Command<'c, E: Emulator> {
    pub alloc: Global,
    pub emulator: &'c E,
    /// Its line in the suite, and its words after the program's name.
    pub line: &'c str,
    pub words: &'c [String],
    pub folder: &'c Folder,
}

impl<E: Emulator> Command<'_, E> {
    /// Does it, with the calls that fail.
    pub fn run(&self, faults: Faults) -> Result<Trial, Stopped> {
        let out = MemorySink::new(self.alloc, faults.room, &[faults.out])?;
        let notes = MemorySink::new(self.alloc, NOTE_ROOM, &[faults.notes])?;
        let shelf = shelf_of(self.alloc, self.folder, faults.shelf)?;
        self.run_over(Trial {
            status: 0,
            shelf,
            out,
            notes,
        })
    }

    /// Does it over a shelf and sinks.
    fn run_over(&self, mut trial: Trial) -> Result<Trial, Stopped> {
        let (shelf, out, notes) = (&mut trial.shelf, &mut trial.out, &mut trial.notes);
        trial.status = self
            .emulator
            .command(self.alloc, self.words, shelf, out, notes)?;
        Ok(trial)
    }
}
