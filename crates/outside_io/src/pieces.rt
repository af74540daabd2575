//! Loops over the calls of std, each of which moves some bytes of a piece.
ghost use Rattle.std.specs.Prelude.{◌≡◌, ◌≢◌, ℕ, ◌+◌, ◌<◌, ◌≤◌, ◌↔◌, [], take, length, Ok, Err, OnOk, OnErr, IsErr, IfOk, IfErr, IsErrAnd, IfSome, vec_len};
ghost use Rattle.std.specs.IoError.{error_kind};
ghost use Rattle.std.specs.Io.KnownBytes.{Appends};

use crate::answers::{Failed, Loaded, ShelfFault};
use std::fs::OpenFile;
use std::io;
use std::io::{ErrorKind, Read, Write};

/// How many bytes one read asks for at most: a saved board and one byte more come in one read.
const CHUNK: usize = 8192;

/// A piece that wasn't taken whole: so many bytes of it were.
#[derive(Clone, Copy)]
pub(crate) struct Short {
    pub(crate) taken: usize,
}

/// Writes a whole piece, in as many calls as it takes. A call that takes nothing fails, and so each
/// turn takes a byte at least.
pub(crate) fn write_whole<W: Write>(to: &mut W, bytes: &[u8]) -> Result<(), Short>
    ensures whole { OnOk result (Appends (W.contents to.old) (W.contents to.new) bytes.now) }
    ensures part { IfErr result (λ short. Appends (W.contents to.old) (W.contents to.new) (take short.taken bytes.now)) }
    ensures short { IfErr result (λ short. short.taken < length bytes.now) }
{
    let mut rest = bytes;
    while !rest.is_empty() {
        match to.write(rest) {
            Ok(0) | Err(_) => {
                return Err(Short {
                    taken: bytes.len() - rest.len(),
                });
            }
            Ok(count) => rest = &rest[count..],
        }
    }
    Ok(())
}

/// Reads the first bytes of a file into an empty buffer: all of them, or one more than the limit. A
/// read of nothing is the end of the file, and so each turn brings a byte at least.
pub(crate) fn read_first<F: Read>(
    file: &mut F,
    limit: usize,
    into: &mut Vec<u8>,
) -> Result<(), ShelfFault>
    requires { into.old.items ≡ [] }
    ensures bound { vec_len into.new ≤ limit + 1 }
    ensures first { OnOk result (IfSome (F.remaining file.old) (λ whole. into.new.items ≡ take (limit + 1) whole)) }
{
    let mut chunk = [0; CHUNK];
    while into.len() <= limit {
        let wanted = (limit - into.len()).min(CHUNK - 1) + 1;
        let count = match file.read(&mut chunk[..wanted]) {
            Ok(0) => break,
            Ok(count) => count,
            Err(_) => return Err(ShelfFault::Failed),
        };
        let Ok(()) = into.extend_from_slice(&chunk[..count]) else {
            return Err(ShelfFault::OutOfMemory);
        };
    }
    Ok(())
}

/// Reads a file that was to be opened. Where it wasn't found it is absent, and every other error is
/// a fault.
pub(crate) fn read_opened<F: Read + Drop>(
    opened: io::Result<F>,
    limit: usize,
    into: &mut Vec<u8>,
) -> Result<Loaded, ShelfFault>
    requires { into.old.items ≡ [] }
    ensures absent { (result ≡ Ok Loaded.Absent) ↔ IsErrAnd opened (λ error. error_kind error ≡ ErrorKind.NotFound) }
    ensures fault { IsErrAnd opened (λ error. error_kind error ≢ ErrorKind.NotFound) → result ≡ Err ShelfFault.Failed }
    ensures empty { IsErr opened → into.new.items ≡ [] }
    ensures bound { vec_len into.new ≤ limit + 1 }
    ensures first { IfOk opened (λ file. OnOk result (IfSome (F.remaining file) (λ whole. into.new.items ≡ take (limit + 1) whole))) }
{
    match opened {
        Ok(mut file) => {
            read_first(&mut file, limit, into)?;
            Ok(Loaded::Found)
        }
        Err(error) => match error.kind() {
            ErrorKind::NotFound => Ok(Loaded::Absent),
            _ => Err(ShelfFault::Failed),
        },
    }
}

/// Writes a piece over a file in place, from its start. A regular file is first made one byte
/// longer than the piece and at last cut to its length, so that a reader refuses it by its length
/// until it is whole. After an `Err` it is as it was, or a first part of the piece, or one byte too
/// long. A pipe or a device takes the piece alone.
pub(crate) fn write_over<F: Write + OpenFile>(file: &mut F, bytes: &[u8]) -> Result<(), Failed>
    ensures whole { OnOk result (Appends (F.contents file.old) (F.contents file.new) bytes.now) }
    ensures part { OnErr result ((k : ℕ) × Appends (F.contents file.old) (F.contents file.new) (take k bytes.now)) }
{
    let found = file.metadata().map_err(|_| Failed)?;
    if !found.is_file() {
        return write_whole(file, bytes).map_err(|_| Failed);
    }
    let len = bytes.len() as u64;
    file.set_len(len.saturating_add(1)).map_err(|_| Failed)?;
    match write_whole(file, bytes) {
        Ok(()) => file.set_len(len).map_err(|_| Failed),
        Err(short) => {
            // Where this fails too, the file stays one byte too long.
            let _ = file.set_len(len_after(short, found.len(), len));
            Err(Failed)
        }
    }
}

/// The length to leave a file with after a piece that wasn't taken whole: the old one where the
/// file is still as it was.
fn len_after(short: Short, before: u64, len: u64) -> u64 {
    if short.taken == 0 && before <= len {
        before
    } else {
        short.taken as u64
    }
}
