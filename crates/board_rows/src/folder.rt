//! The files that a row has in its folder.

use crate::stopped::Stopped;
use outside_io::{MemoryShelf, Stored};
use std::alloc::Global;

/// A file.
#[derive(Drop)]
struct File {
    name: String,
    bytes: Vec<u8>,
}

/// Files, each under a name.
#[derive(Drop)]
pub struct Folder {
    alloc: Global,
    files: Vec<File>,
}

/// Three runs of bytes, one after another.
fn joined(alloc: Global, a: &[u8], b: &[u8], c: &[u8]) -> Result<Vec<u8>, Stopped> {
    let mut bytes = Vec::from_slice(alloc, a)?;
    bytes.extend_from_slice(b)?;
    bytes.extend_from_slice(c)?;
    Ok(bytes)
}

impl Folder {
    /// An empty folder.
    pub fn new(alloc: Global) -> Folder {
        Folder {
            alloc,
            files: Vec::new(alloc),
        }
    }

    /// The place of a file.
    fn place(&self, name: &str) -> Option<usize> {
        for (i, file) in self.files.iter().enumerate() {
            if file.name.as_str() == name {
                return Some(i);
            }
        }
        None
    }

    /// The bytes of a file. One that isn't there has none.
    pub fn bytes(&self, name: &str) -> &[u8] {
        let Some(place) = self.place(name) else {
            return &[];
        };
        match self.files.get(place) {
            Some(file) => &file.bytes,
            None => &[],
        }
    }

    /// Adds a file whose name isn't there.
    fn add(&mut self, name: &str, bytes: Vec<u8>) -> Result<(), Stopped> {
        let name = String::from_str(self.alloc, name)?;
        self.files.push(File { name, bytes })?;
        Ok(())
    }

    /// Replaces what is under a file's name by the file.
    pub fn put(&mut self, name: &str, bytes: Vec<u8>) -> Result<(), Stopped> {
        let Some(place) = self.place(name) else {
            return self.add(name, bytes);
        };
        if let Some(file) = self.files.get_mut(place) {
            file.bytes = bytes;
        }
        Ok(())
    }

    /// Makes a file so many bytes long: it is cut, or has zeros at its end.
    pub fn set_length(&mut self, name: &str, length: usize) -> Result<(), Stopped> {
        let mut bytes = Vec::from_slice(self.alloc, self.bytes(name))?;
        bytes.resize(length, 0)?;
        self.put(name, bytes)
    }

    /// Puts bytes over those of a file from an offset on.
    pub fn patch(&mut self, name: &str, offset: usize, part: &[u8]) -> Result<(), Stopped> {
        let old = self.bytes(name);
        let front = old.get(..offset).ok_or(Stopped::Form)?;
        let back = old.get(offset.saturating_add(part.len())..).unwrap_or(&[]);
        let bytes = joined(self.alloc, front, part, back)?;
        self.put(name, bytes)
    }

    /// Replaces what is under a name by a copy of these bytes.
    pub fn copy_in(&mut self, name: &str, bytes: &[u8]) -> Result<(), Stopped> {
        let bytes = Vec::from_slice(self.alloc, bytes)?;
        self.put(name, bytes)
    }

    /// Puts the stores of a command, the newest last.
    pub fn keep(&mut self, stores: &[Stored]) -> Result<(), Stopped> {
        for store in stores {
            self.copy_in(store.name(), store.bytes())?;
        }
        Ok(())
    }

    /// Puts stores under other names, each by its number from 0 on.
    pub fn keep_as(&mut self, stores: &[Stored], kept: &[(&str, usize)]) -> Result<(), Stopped> {
        for (name, place) in kept {
            if let Some(store) = stores.get(*place) {
                self.copy_in(name, store.bytes())?;
            }
        }
        Ok(())
    }

    /// Puts the files on a shelf.
    pub fn fill(&self, shelf: &mut MemoryShelf) -> Result<(), Stopped> {
        for file in self.files.as_slice() {
            shelf.put(&file.name, &file.bytes)?;
        }
        Ok(())
    }
}
