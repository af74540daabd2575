ghost use Rattle.std.specs.Prelude.{◌≡◌, ◌≤◌, OnOk, OnErr};
ghost use Rattle.std.specs.Option.{option_map};
ghost use Rattle.outside_io.specs.Causes.{HasCause};
ghost use Rattle.outside_io.specs.Events.{storing, stores_of};
ghost use Rattle.outside_io.specs.Known.{grown};

use crate::answers::Failed;
use crate::outside::Shelf;

/// Stores bytes under a name, where one is given.
#[tactic(auto, unfolding(crate::specs::Events::stores_of))]
pub fn store_under<S: Shelf>(name: Option<&str>, bytes: &[u8], shelf: &mut S) -> Result<(), Failed>
    ensures stored { OnOk result (S.stores shelf.new
        ≡ grown (S.stores shelf.old) (stores_of (storing (option_map (λ name. name.now) name.entry) bytes.now))) }
    ensures not_stored { OnErr result (S.stores shelf.new ≡ S.stores shelf.old) }
    ensures cause { HasCause (S.faults shelf.old) (S.faults shelf.new) result }
    ensures absences { S.absences shelf.old ≤ S.absences shelf.new }
{
    match name {
        Some(name) => shelf.store(name, bytes),
        None => Ok(()),
    }
}
