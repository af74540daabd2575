//! The files of a shelf in memory.
ghost use Rattle.std.specs.Prelude.{◌≡◌, ◌+◌, ◌-◌, ◌<◌, ◌≤◌, [], ◌∷◌, ◌++◌, IfOk, OnOk, OnErr, IsTrue, ◌↔◌, length, option_copied, find, reverse, bytes_eq, All, vec_len, vec_capacity};
ghost use Rattle.outside_io.specs.Content.{content_of, FileListValue};

use crate::stored::Stored;
use std::alloc::{AllocError, Global};
use std::marker::Model;

/// Files in the order in which they came, with memory set aside for some more.
#[derive(Drop)]
pub(crate) struct FileList {
    files: Vec<Stored>,
    // An empty buffer for each file that may still be kept.
    buffers: Vec<Vec<u8>>,
    room: usize,
}

impl Model for FileList {
    ghost use Rattle.std.specs.Prelude.{◌≡◌, ◌+◌, ◌≤◌, [], All, vec_len, vec_capacity};
    ghost use Rattle.outside_io.specs.Content.{FileListValue};

    ghost Value = { FileListValue };

    ghost view = { λ l. record { files = l.files.items; left = vec_len l.buffers; room = l.room } };

    ghost invariant = { λ l. (vec_len l.files + vec_len l.buffers ≤ vec_capacity l.files)
        × All (λ buffer. (buffer.items ≡ []) × (l.room ≤ vec_capacity buffer)) l.buffers.items };
}

impl FileList {
    /// A list that takes no memory yet, and has none set aside.
    pub(crate) fn new(alloc: Global) -> FileList
        ensures { result ≡ record { files = []; left = 0; room = 0 } }
    {
        FileList {
            files: Vec::new(alloc),
            buffers: Vec::new(alloc),
            room: 0,
        }
    }

    /// Sets aside the memory of `count` files, each of at most `room` bytes with its name.
    pub(crate) fn with_room(
        alloc: Global,
        count: usize,
        room: usize,
    ) -> Result<FileList, AllocError>
        ensures { IfOk result (λ l. l ≡ record { files = []; left = count; room = room }) }
    {
        let files = Vec::with_capacity(alloc, count)?;
        let buffers = empty_buffers(alloc, count, room)?;
        Ok(FileList {
            files,
            buffers,
            room,
        })
    }

    /// Adds a file, and takes memory for it beside what is set aside.
    pub(crate) fn put(&mut self, name: &str, bytes: &[u8]) -> Result<(), AllocError>
        ensures ok { OnOk result (self.new ≡ record self.old { files = self.old.files ++ (name.now, bytes.now) ∷ [] }) }
        ensures err { OnErr result (self.new ≡ self.old) }
    {
        let file = Stored::new(*self.files.allocator(), name, bytes)?;
        self.files.reserve(self.buffers.len() + 1)?;
        self.files.push_reserved(file);
        Ok(())
    }

    /// Adds a file in the memory that is set aside, and takes no more.
    pub(crate) fn keep(&mut self, name: &str, bytes: &[u8])
        requires left { 0 < self.old.left }
        requires in_room { length name.now + length bytes.now ≤ self.old.room }
        ensures { self.new ≡ record self.old { files = self.old.files ++ (name.now, bytes.now) ∷ []; left = self.old.left - 1 } }
    {
        let buffer = self.buffers.pop().unwrap();
        self.files.push_reserved(Stored::fill(buffer, name, bytes));
    }

    /// All files, the newest last.
    pub(crate) fn files(&self) -> &[Stored]
        ensures { result.now ≡ self.now.files }
    {
        &self.files
    }

    /// Is no memory left for a further file?
    pub(crate) fn is_full(&self) -> bool
        ensures { IsTrue result ↔ (self.now.left ≡ 0) }
    {
        self.buffers.is_empty()
    }

    /// The bytes under a name: of several files the last one's.
    #[tactic(auto, unfolding(crate::specs::Content::content_of))]
    pub(crate) fn content(&self, name: &str) -> Option<&[u8]>
        ensures { option_copied result ≡ content_of self.now.files name.now }
    {
        match self.newest(name) {
            Some(file) => Some(file.bytes()),
            None => None,
        }
    }

    fn newest(&self, name: &str) -> Option<&Stored>
        ensures { option_copied result ≡ find (λ file. bytes_eq file.0 name.now) (reverse self.now.files) }
    {
        self.files.iter().rev().find(|file| file.name() == name)
    }
}

fn empty_buffers(alloc: Global, count: usize, room: usize) -> Result<Vec<Vec<u8>>, AllocError>
    ensures count { IfOk result (λ buffers. vec_len buffers ≡ count) }
    ensures empty { IfOk result (λ buffers. All (λ buffer. (buffer.items ≡ []) × (room ≤ vec_capacity buffer)) buffers.items) }
{
    let mut buffers = Vec::with_capacity(alloc, count)?;
    for _ in 0..count {
        buffers.push(Vec::with_capacity(alloc, room)?)?;
    }
    Ok(buffers)
}
