//! A file is replaced as a whole: its bytes go into a new file in the same folder, which is then
//! renamed over its name.

use crate::answers::Failed;
use crate::pieces::write_whole;
use arrayvec::ArrayString;
use std::fmt::Write as _;
use std::fs::{Metadata, OpenFile, OpenOptions};
use std::io::{self, ErrorKind};
use std::os::unix::fs::{MetadataExt, OpenOptionsExt};
use std::rt::Files;
use std::{fmt, fs};

/// The longest path in bytes, with one for the NUL at its end (Linux: PATH_MAX).
const PATH_LEN: usize = 4096;

/// How many names are tried for the new file. One is taken where a process of the same number was
/// killed in a store.
const NAMES: u32 = 1000;

/// Room for the path of the new file, so that a store takes no memory.
pub(crate) type Path = ArrayString<PATH_LEN>;

/// The result of a replacement in which no step failed.
#[derive(Clone, Copy, PartialEq, Eq)]
pub(crate) enum Replaced {
    /// The name has the new bytes.
    Renamed,
    /// Nothing was changed. The bytes have to be written over the file in place.
    NotPossible,
}

/// What a name is before a store.
#[derive(Drop)]
enum Target {
    /// No file has the name.
    Absent,
    /// A regular file with no other hard link, which may be written.
    Regular(Metadata),
    /// A link, a pipe, a device, a folder, or a file that can't be opened for writing.
    Other,
}

/// Writes the bytes into a new file and renames it over `name`. After an `Err`, and after a signal
/// at any moment, `name` is what it was or has all the new bytes. `path` holds the path of the new
/// file.
pub(crate) fn replace<R: Files>(
    rt: &R,
    process: u32,
    path: &mut Path,
    name: &str,
    bytes: &[u8],
) -> Result<Replaced, Failed> {
    let target = look(rt, name);
    let Some(mut file) = create_new(rt, process, path, name, &target)? else {
        return Ok(Replaced::NotPossible);
    };
    if !is_like(&file, &target) {
        let _ = fs::remove_file(rt, path.as_str());
        return Ok(Replaced::NotPossible);
    }
    if write_whole(&mut file, bytes).is_err() {
        let _ = fs::remove_file(rt, path.as_str());
        return Err(Failed);
    }
    if let Err(error) = fs::rename(rt, path.as_str(), name) {
        let _ = fs::remove_file(rt, path.as_str());
        return if is_refusal(&error) {
            Ok(Replaced::NotPossible)
        } else {
            Err(Failed)
        };
    }
    Ok(Replaced::Renamed)
}

/// Whether an error says that a name may not be used, and not that a step failed, as on a full
/// disk.
fn is_refusal(error: &io::Error) -> bool {
    matches!(
        error.kind(),
        ErrorKind::PermissionDenied
            | ErrorKind::ReadOnlyFilesystem
            | ErrorKind::ResourceBusy
            | ErrorKind::InvalidFilename
    )
}

/// Looks at a name without following a link. A regular file is opened for writing, so that one
/// which may not be written isn't replaced.
fn look<R: Files>(rt: &R, name: &str) -> Target {
    match fs::symlink_metadata(rt, name) {
        Ok(found) if found.is_file() && found.nlink() <= 1 => {
            match OpenOptions::new().write(true).open(rt, name) {
                Ok(_) => Target::Regular(found),
                Err(_) => Target::Other,
            }
        }
        Err(error) if error.kind() == ErrorKind::NotFound => Target::Absent,
        _ => Target::Other,
    }
}

/// Creates a file under the first name beside `name` that is free, with no more permissions than
/// `target`. `None` where no such name may be used.
fn create_new<R: Files>(
    rt: &R,
    process: u32,
    path: &mut Path,
    name: &str,
    target: &Target,
) -> Result<Option<R::File>, Failed> {
    let mode = match target {
        Target::Absent => 0o666,
        Target::Regular(found) => found.mode() & 0o777,
        Target::Other => return Ok(None),
    };
    for number in 0..NAMES {
        if write_path(path, name, process, number).is_err() {
            return Ok(None);
        }
        let made = OpenOptions::new()
            .write(true)
            .create_new(true)
            .mode(mode)
            .open(rt, path.as_str());
        match made {
            Ok(file) => return Ok(Some(file)),
            Err(error) if error.kind() == ErrorKind::AlreadyExists => {}
            Err(error) if is_refusal(&error) => return Ok(None),
            Err(_) => return Err(Failed),
        }
    }
    Ok(None)
}

/// Gives a new file the permissions of `target`. `false` where their owners or groups differ.
fn is_like<F: OpenFile>(file: &F, target: &Target) -> bool {
    let Target::Regular(found) = target else {
        return true;
    };
    let Ok(made) = file.metadata() else {
        return false;
    };
    if made.uid() != found.uid() || made.gid() != found.gid() {
        return false;
    }
    made.mode() == found.mode() || file.set_permissions(found.permissions()).is_ok()
}

/// Writes the path of a new file: `NAME.PROCESS-NUMBER.new`.
fn write_path(path: &mut Path, name: &str, process: u32, number: u32) -> fmt::Result {
    path.clear();
    path.write_str(name)?;
    write!(path, ".{process}-{number}.new")
}
