//! The first bytes of a file in memory.
ghost use Rattle.std.specs.Prelude.{◌≡◌, ◌+◌, take, OnOk, OnErr, []};

use std::alloc::AllocError;

/// Copies the first bytes of a file into an empty buffer: all of them, or one more than the limit.
pub(crate) fn copy_first(file: &[u8], limit: usize, into: &mut Vec<u8>) -> Result<(), AllocError>
    requires { into.old.items ≡ [] }
    ensures ok { OnOk result (into.new.items ≡ take (limit + 1) file.now) }
    ensures err { OnErr result (into.new.items ≡ []) }
{
    into.extend_from_slice(file.get(..=limit).unwrap_or(file))
}
