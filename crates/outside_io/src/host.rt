//! A shelf and an output, lent together to what needs both.
ghost use Rattle.std.specs.Prelude.{◌≡◌};
ghost use Rattle.std.proofs.Props.{props};
ghost use Rattle.outside_io.specs.Seen.{AreLent, HostStores, HostWrites};

use crate::answers::{Failed, SinkFault};
use crate::outside::{Shelf, Sink};

/// A shelf and an output, lent together.
#[derive(Drop)]
pub struct Host<'a, S: Shelf, O: Sink> {
    /// The shelf.
    pub shelf: &'a mut S,
    /// The output.
    pub out: &'a mut O,
    ghost lent: { AreLent (S.absences shelf.now) (O.faults out.now) } by { Prim.hlevel props },
}

impl<'a, S: Shelf, O: Sink> Host<'a, S, O> {
    ghost use Rattle.outside_io.specs.Hosts.{seen};

    /// Lends both.
    pub fn of(shelf: &'a mut S, out: &'a mut O) -> Host<'a, S, O>
        ensures { seen result ≡ record {
          shelf_loan = shelf.entry.ghost_name;
          out_loan = out.entry.ghost_name;
          files = S.files shelf.old;
          stores = S.stores shelf.old;
          taken = O.taken out.old;
          shelf_faults = S.faults shelf.old;
          out_faults = O.faults out.old;
          absences = S.absences shelf.old;
        } }
    {
        Host { shelf, out }
    }

    /// Puts a file on the shelf, in the place of what stands there under the name.
    pub fn store(&mut self, name: &str, bytes: &[u8]) -> Result<(), Failed>
        ensures { HostStores (seen self.old) (seen self.new) name.now bytes.now result }
    {
        self.shelf.store(name, bytes)
    }

    /// Writes a piece to the output.
    pub fn write(&mut self, bytes: &[u8]) -> Result<(), SinkFault>
        ensures { HostWrites (seen self.old) (seen self.new) bytes.now result }
    {
        self.out.write(bytes)
    }
}
