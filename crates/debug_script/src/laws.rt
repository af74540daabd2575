//! The limits of a script as plain numbers, by the contract of a function that does nothing.
ghost use Rattle.std.specs.Prelude.{◌≡◌};

use crate::script::{MOST_BYTES, MOST_INSTRUCTIONS, MOST_TURNS, SCRIPT_LIMIT};
use crate::stops::STOPS;

/// The most bytes of a script, the most breaks and watches at one time, and the most turns, bytes
/// and instructions of a command.
pub fn script_limits()
    ensures script { SCRIPT_LIMIT ≡ 65536 }
    ensures stops { STOPS ≡ 16 }
    ensures turns { MOST_TURNS ≡ 1000000 }
    ensures bytes { MOST_BYTES ≡ 256 }
    ensures instructions { MOST_INSTRUCTIONS ≡ 64 }
{}
