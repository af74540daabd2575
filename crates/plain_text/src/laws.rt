//! The limits of plain text as plain numbers, by the contract of a function that does nothing.
ghost use Rattle.std.specs.Prelude.{◌≡◌};

use crate::number::DIGITS;

/// The most digits of a decimal number: 15.
pub fn number_limits()
    ensures digits { DIGITS ≡ 15 }
{}
