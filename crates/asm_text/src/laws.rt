//! The limits of a source as plain numbers, by the contract of a function that does nothing.
ghost use Rattle.std.specs.Prelude.{◌≡◌};

use crate::scan::TEXT_LIMIT;

/// The most bytes of a source: 1,048,576, which is 1 MiB.
pub fn source_limits()
    ensures bytes { TEXT_LIMIT ≡ 1048576 }
{}
