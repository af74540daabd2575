//! The two I/O traits.
ghost use Rattle.std.specs.Prelude.{◌≡◌, ℕ, ◌≤◌, List, [], ◌∷◌, Option, OnOk, OnErr, IfSome, IsOk};
ghost use Rattle.outside_io.specs.Causes.{HasCause};
ghost use Rattle.outside_io.specs.Known.{grown};
ghost use Rattle.outside_io.specs.Shelf.{Files, Kept, Loads, LoadFaults, LoadAbsences, KeepsOthers};
ghost use Rattle.outside_io.specs.Sink.{Takes};

use crate::answers::{Failed, Loaded, ShelfFault, SinkFault};

/// Files, each under a name. A count never falls: it stays at the greatest `u64` once it is
/// there.
pub trait Shelf {
    /// The content of each name, where it is known.
    ghost files: { Self → Option Files };

    /// The successful stores in order, where they are known.
    ghost stores: { Self → Option (List Kept) };

    /// How often a call has failed.
    ghost faults: { Self → ℕ };

    /// How often a file wasn't there.
    ghost absences: { Self → ℕ };

    /// Puts the first bytes of a file into the empty `into`: all of them where there are at most
    /// `limit`, else `limit` and one more. A file that isn't there leaves it empty. After an `Err`
    /// nothing is said of `into`, and the caller drops it. Any call may run out of memory.
    fn load(&mut self, name: &str, limit: usize, into: &mut Vec<u8>) -> Result<Loaded, ShelfFault>
        requires { into.old.items ≡ [] }
        ensures content { Loads (files self.old) name.now limit result into.new.items }
        ensures files { files self.new ≡ files self.old }
        ensures stores { stores self.new ≡ stores self.old }
        ensures cause { LoadFaults (faults self.old) (faults self.new) result }
        ensures absences { LoadAbsences (absences self.old) (absences self.new) result };

    /// Puts a file in the place of what stands under the name. After an `Err` nothing is said of
    /// the content of that name.
    fn store(&mut self, name: &str, bytes: &[u8]) -> Result<(), Failed>
        ensures stored { OnOk result (stores self.new ≡ grown (stores self.old) ((name.now, bytes.now) ∷ [])) }
        ensures not_stored { OnErr result (stores self.new ≡ stores self.old) }
        ensures file { OnOk result (IfSome (files self.new) (λ now. now name.now ≡ Some bytes.now)) }
        ensures others { KeepsOthers (files self.old) (files self.new) name.now }
        ensures cause { HasCause (faults self.old) (faults self.new) result }
        ensures absences { absences self.old ≤ absences self.new };
}

/// A stream that takes bytes. A count never falls: it stays at the greatest `u64` once it is there.
pub trait Sink {
    /// The bytes taken, where they are known.
    ghost taken: { Self → Option (List ℕ) };

    /// How often a call has failed.
    ghost faults: { Self → ℕ };

    /// Takes a piece, whole or up to where the sink fails.
    fn write(&mut self, bytes: &[u8]) -> Result<(), SinkFault>
        ensures taken { Takes (taken self.old) (taken self.new) bytes.now result }
        ensures cause { HasCause (faults self.old) (faults self.new) result }
        ensures empty { bytes.now ≡ [] → IsOk result };
}
