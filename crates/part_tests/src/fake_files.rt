//! A folder in memory with a file and a new file beside it. It notes its calls, and lets some of
//! them fail.

use std::alloc::Allocator;
use std::cell::Cell;
use std::fs::{Metadata, OpenFile, OpenOptions, Permissions};
use std::io;
use std::io::{ErrorKind, Read, Seek, SeekFrom, Write};
use std::rt::Files;

/// How many calls are noted.
const NOTED: usize = 16;

/// How many bytes a file can have.
const ROOM: usize = 8;

/// How many bytes a write takes at most.
const PIECE: usize = 3;

/// What the file is.
#[derive(Clone, Copy, PartialEq, Eq)]
pub(crate) enum Kind {
    Regular,
    Link,
    /// No regular file and no link: a pipe or a device.
    Device,
}

/// A call on the folder or on a file in it.
#[derive(Clone, Copy, Debug, PartialEq, Eq)]
pub(crate) enum Call {
    Look,
    Open,
    CreateNew,
    Metadata,
    SetLen(u64),
    Write,
    Rename,
    Remove,
}

/// The first bytes of `bytes`.
#[derive(Clone, Copy)]
pub(crate) struct Content {
    bytes: [u8; ROOM],
    len: usize,
}

impl Content {
    pub(crate) fn of(bytes: &[u8]) -> Content {
        let mut made = Content {
            bytes: [0; ROOM],
            len: 0,
        };
        made.put(0, bytes);
        made
    }

    pub(crate) fn as_slice(&self) -> &[u8] {
        self.bytes.get(..self.len).unwrap_or(&[])
    }

    fn put(&mut self, at: usize, bytes: &[u8]) {
        for (place, byte) in self.bytes.iter_mut().skip(at).zip(bytes) {
            *place = *byte;
        }
        self.len = self.len.max(at.saturating_add(bytes.len()));
    }

    fn set_len(&mut self, len: usize) {
        for place in self.bytes.iter_mut().skip(self.len.min(len)) {
            *place = 0;
        }
        self.len = len;
    }
}

/// The folder. Its calls are numbered from 1, and those in `fails` fail.
#[derive(Drop)]
pub(crate) struct Folder<'a> {
    kind: Kind,
    fails: &'a [usize],
    calls: Cell<[Call; NOTED]>,
    count: Cell<usize>,
    /// How many names beside the file are taken.
    taken: Cell<u32>,
    old: Cell<Option<Content>>,
    new: Cell<Option<Content>>,
}

impl<'a> Folder<'a> {
    pub(crate) fn new(
        kind: Kind,
        old: Option<&[u8]>,
        taken: u32,
        fails: &'a [usize],
    ) -> Folder<'a> {
        Folder {
            kind,
            fails,
            calls: Cell::new([Call::Look; NOTED]),
            count: Cell::new(0),
            taken: Cell::new(taken),
            old: Cell::new(old.map(Content::of)),
            new: Cell::new(None),
        }
    }

    /// The calls in their order, and how many they are.
    pub(crate) fn calls(&self) -> ([Call; NOTED], usize) {
        (self.calls.get(), self.count.get())
    }

    pub(crate) fn content(&self) -> Content {
        self.old.get().unwrap_or(Content::of(b""))
    }

    /// Whether a new file is left beside the file.
    pub(crate) fn has_new_file(&self) -> bool {
        self.new.get().is_some()
    }

    /// Notes a call.
    fn note(&self, call: Call) -> io::Result<()> {
        let count = self.count.get();
        let mut calls = self.calls.get();
        if let Some(place) = calls.get_mut(count) {
            *place = call;
        }
        self.calls.set(calls);
        self.count.set(count.saturating_add(1));
        if self.fails.contains(&count.saturating_add(1)) {
            return Err(io::Error::from(ErrorKind::PermissionDenied));
        }
        Ok(())
    }

    fn file(&self, is_new: bool) -> &Cell<Option<Content>> {
        if is_new { &self.new } else { &self.old }
    }
}

/// A file of the folder that is open for writing.
#[derive(Drop)]
pub(crate) struct FakeFile<'a> {
    folder: &'a Folder<'a>,
    is_new: bool,
    at: usize,
}

impl<'a> FakeFile<'a> {
    fn content(&self) -> Content {
        let content = self.folder.file(self.is_new).get();
        content.unwrap_or(Content::of(b""))
    }

    fn set(&self, content: Content) {
        self.folder.file(self.is_new).set(Some(content));
    }
}

impl<'a> Read for FakeFile<'a> {
    fn read(&mut self, _buf: &mut [u8]) -> io::Result<usize> {
        Ok(0)
    }
}

impl<'a> Write for FakeFile<'a> {
    fn write(&mut self, buf: &[u8]) -> io::Result<usize> {
        self.folder.note(Call::Write)?;
        let taken = buf.len().min(PIECE);
        let mut content = self.content();
        content.put(self.at, buf.get(..taken).unwrap_or(buf));
        self.set(content);
        self.at = self.at.saturating_add(taken);
        Ok(taken)
    }

    fn flush(&mut self) -> io::Result<()> {
        Ok(())
    }
}

impl<'a> Seek for FakeFile<'a> {
    fn seek(&mut self, _to: SeekFrom) -> io::Result<u64> {
        Err(io::Error::from(ErrorKind::Unsupported))
    }
}

impl<'a> OpenFile for FakeFile<'a> {
    fn metadata(&self) -> io::Result<Metadata> {
        self.folder.note(Call::Metadata)?;
        if self.folder.kind == Kind::Device {
            return Ok(Metadata::of_dir());
        }
        Ok(Metadata::of_file(self.content().len as u64))
    }

    fn set_len(&self, size: u64) -> io::Result<()> {
        self.folder.note(Call::SetLen(size))?;
        let mut content = self.content();
        content.set_len((size as usize).min(ROOM));
        self.set(content);
        Ok(())
    }

    fn sync_all(&self) -> io::Result<()> {
        Ok(())
    }

    fn sync_data(&self) -> io::Result<()> {
        Ok(())
    }
}

/// The calls of the folder as those of a runtime.
#[derive(Clone, Copy)]
pub(crate) struct Fake<'a>(pub(crate) &'a Folder<'a>);

impl<'a> Files for Fake<'a> {
    type File = FakeFile<'a>;

    type Dir = FakeFile<'a>;

    fn open_file(&self, how: &OpenOptions, _path: &str) -> io::Result<FakeFile<'a>> {
        let folder = self.0;
        let is_new = how.asks_create_new();
        folder.note(if is_new { Call::CreateNew } else { Call::Open })?;
        if is_new {
            let taken = folder.taken.get();
            if taken > 0 {
                folder.taken.set(taken - 1);
                return Err(io::Error::from(ErrorKind::AlreadyExists));
            }
            folder.new.set(Some(Content::of(b"")));
        }
        Ok(FakeFile {
            folder,
            is_new,
            at: 0,
        })
    }

    fn open_dir(&self, _path: &str) -> io::Result<FakeFile<'a>> {
        Err(io::Error::from(ErrorKind::Unsupported))
    }

    fn metadata(&self, _path: &str) -> io::Result<Metadata> {
        Err(io::Error::from(ErrorKind::Unsupported))
    }

    fn symlink_metadata(&self, _path: &str) -> io::Result<Metadata> {
        self.0.note(Call::Look)?;
        match (self.0.kind, self.0.old.get()) {
            (_, None) => Err(io::Error::from(ErrorKind::NotFound)),
            (Kind::Regular, Some(old)) => Ok(Metadata::of_file(old.len as u64)),
            (Kind::Link, Some(_)) => Ok(Metadata::of_symlink(1)),
            (Kind::Device, Some(_)) => Ok(Metadata::of_dir()),
        }
    }

    fn copy(&self, _from: &str, _to: &str) -> io::Result<u64> {
        Err(io::Error::from(ErrorKind::Unsupported))
    }

    fn rename(&self, _from: &str, _to: &str) -> io::Result<()> {
        self.0.note(Call::Rename)?;
        self.0.old.set(self.0.new.get());
        self.0.new.set(None);
        Ok(())
    }

    fn remove_file(&self, _path: &str) -> io::Result<()> {
        self.0.note(Call::Remove)?;
        self.0.new.set(None);
        Ok(())
    }

    fn create_dir(&self, _path: &str) -> io::Result<()> {
        Err(io::Error::from(ErrorKind::Unsupported))
    }

    fn remove_dir(&self, _path: &str) -> io::Result<()> {
        Err(io::Error::from(ErrorKind::Unsupported))
    }

    fn remove_dir_all<B: Allocator>(&self, _alloc: B, _path: &str) -> io::Result<()> {
        Err(io::Error::from(ErrorKind::Unsupported))
    }
}
