//! What holds of all profiles. Each is the contract of a function that does nothing.
ghost use Rattle.std.specs.Prelude.{◌≡◌, ℕ, [], ◌∷◌, replicate};
ghost use Rattle.catchup_engine.specs.Trace.{TraceValue};
ghost use Rattle.cycle_profile.specs.Counts.{no_counts};
ghost use Rattle.cycle_profile.specs.Profile.{AddsUp, KeepsTheSum, ProfileValue};

use crate::profile::{ADDRESSES, LONGEST_LIST};

/// A profile has counts of 65,536 addresses, and at most 128 routines on its list.
pub fn profile_numbers()
    ensures addresses { ADDRESSES ≡ 65536 }
    ensures longest_list { LONGEST_LIST ≡ 128 }
{}

/// The clocks of all addresses add up to those of all sequences, at first and after each sequence,
/// as long as these stand below the end of a count.
pub fn clocks_add_up()
    ensures first { (pc : ℕ) → AddsUp (record { routines = pc ∷ []; counts = replicate ADDRESSES no_counts; clocks = 0 }) }
    ensures next { (p : ProfileValue) → (trace : TraceValue) → (pc : ℕ) → KeepsTheSum p trace pc }
{}
