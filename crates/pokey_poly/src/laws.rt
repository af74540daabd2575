//! What holds of the polynomial registers. It is the contract of a function that does nothing.
ghost use Rattle.std.specs.Prelude.{◌≡◌};

use crate::poly::REACH;

/// How many shifts one move makes at most, by its name in the definitions.
pub fn poly_numbers()
    ensures { REACH ≡ 47 }
{}
