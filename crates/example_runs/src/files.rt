ghost use Rattle.std.specs.Prelude.{◌≡◌, IfOk, IfSome, IsOk, Some};

use crate::stopped::Stopped;
use outside_io::{Loaded, Shelf, ShelfFault};
use std::alloc::Global;

/// The most bytes of a file of a session.
pub const FILE_LIMIT: usize = 1_048_576;

/// A whole file of at most `limit` bytes.
fn read_up_to<S: Shelf>(
    alloc: Global,
    name: &str,
    limit: usize,
    shelf: &mut S,
) -> Result<Vec<u8>, Stopped>
    ensures content { IfSome (S.files shelf.old) (λ files. IfOk result (λ bytes. files name.now ≡ Some bytes.items)) }
    ensures files { S.files shelf.new ≡ S.files shelf.old }
{
    let mut bytes = Vec::new(alloc);
    match shelf.load(name, limit, &mut bytes) {
        Ok(Loaded::Found) if bytes.len() <= limit => Ok(bytes),
        Ok(_) | Err(ShelfFault::Failed) => Err(Stopped::File),
        Err(ShelfFault::OutOfMemory) => Err(Stopped::NoMemory),
    }
}

/// A whole file.
pub fn read_file<S: Shelf>(alloc: Global, name: &str, shelf: &mut S) -> Result<Vec<u8>, Stopped>
    ensures content { IfSome (S.files shelf.old) (λ files. IfOk result (λ bytes. files name.now ≡ Some bytes.items)) }
    ensures files { S.files shelf.new ≡ S.files shelf.old }
{
    read_up_to(alloc, name, FILE_LIMIT, shelf)
}

/// Copies a file, as `cp` does.
pub fn copy<S: Shelf>(alloc: Global, from: &str, to: &str, shelf: &mut S) -> Result<(), Stopped>
    ensures copied { IfSome (S.files shelf.old) (λ old. IfSome (S.files shelf.new) (λ new. IsOk result → new to.now ≡ old from.now)) }
{
    let bytes = read_file(alloc, from, shelf)?;
    shelf.store(to, &bytes).map_err(|_| Stopped::File)
}

/// Goes on where two files are the same, as `cmp` does.
pub fn compare<S: Shelf>(
    alloc: Global,
    first: &str,
    second: &str,
    shelf: &mut S,
) -> Result<(), Stopped>
    ensures same { IfSome (S.files shelf.old) (λ files. IsOk result → files first.now ≡ files second.now) }
    ensures files { S.files shelf.new ≡ S.files shelf.old }
{
    let first = read_file(alloc, first, shelf)?;
    let second = read_file(alloc, second, shelf)?;
    if first == second {
        Ok(())
    } else {
        Err(Stopped::Differ)
    }
}
