//! A shelf over the files of a request that never fails, and counts the stores that it has no room
//! for.
ghost use Rattle.std.specs.Prelude.{◌≡◌, ◌∷◌, ◌++◌, [], OnOk, OnErr, false, Some, IfOk};
ghost use Rattle.outside_io.specs.Steady.{known_files};
ghost use Rattle.command_calls.specs.Bytes.{all_named};

use crate::counted_text::CountedText;
use crate::written::{Piece, Written};
use board_base::OutOfMemory;
use outside_io::{Failed, Loaded, Shelf, ShelfFault, SteadyShelf};
use std::alloc::Global;
use std::marker::Model;

/// Files that were put, and stores in order. The files are known until the first store.
#[derive(Drop)]
pub struct RequestShelf {
    files: SteadyShelf,
    made: Written,
    kept: CountedText,
}

impl Model for RequestShelf {
    ghost use Rattle.std.specs.Prelude.{◌≡◌};
    ghost use Rattle.command_calls.specs.Bytes.{all_named};
    ghost use Rattle.command_calls.specs.Shelves.{RequestFiles};

    ghost Value = { RequestFiles };

    ghost view = { λ s. record { files = s.files.files; changed = s.files.changed; absences = s.files.absences; stores = s.made.pieces } };

    ghost invariant = { λ s. s.kept ≡ all_named s.made.pieces };
}

impl RequestShelf {
    /// A shelf with no files, and with the memory for stores of so many bytes.
    #[tactic(auto, unfolding(crate::specs::Bytes::all_named))]
    pub fn new(alloc: Global, room: usize) -> Result<RequestShelf, OutOfMemory>
        ensures { IfOk result (λ s. s ≡ record { files = []; changed = false; absences = 0; stores = [] }) }
    {
        Ok(RequestShelf {
            files: SteadyShelf::new(alloc),
            made: Written::new(),
            kept: CountedText::with_room(alloc, room)?,
        })
    }

    /// The stores as bytes, each a name and its bytes behind their lengths.
    pub fn stores(&self) -> &CountedText
        ensures { result.now ≡ all_named self.now.stores }
    {
        &self.kept
    }

    /// Puts these bytes under this name, in the place of what stands there.
    pub fn put(&mut self, name: &str, bytes: &[u8]) -> Result<(), OutOfMemory>
        ensures ok { OnOk result (self.new ≡ record self.old { files = self.old.files ++ (name.now, bytes.now) ∷ [] }) }
        ensures err { OnErr result (self.new ≡ self.old) }
    {
        self.files.put(name, bytes)
    }
}

impl Shelf for RequestShelf {
    ghost files = { λ s. known_files s.changed s.files };

    ghost stores = { λ s. Some s.stores };

    ghost faults = { λ _. 0 };

    ghost absences = { λ s. s.absences };

    /// It fails only where memory runs out.
    fn load(&mut self, name: &str, limit: usize, into: &mut Vec<u8>) -> Result<Loaded, ShelfFault> {
        self.files.load(name, limit, into)
    }

    /// It never fails.
    #[tactic(auto, using(crate::proofs::StoreLaws::one_more))]
    fn store(&mut self, name: &str, bytes: &[u8]) -> Result<(), Failed> {
        self.made = self.made.then(&Piece { name, bytes });
        self.kept.push(&(name.len() as u64).to_le_bytes());
        self.kept.push(name.as_bytes());
        self.kept.push(&(bytes.len() as u64).to_le_bytes());
        self.kept.push(bytes);
        self.files.store(name, bytes)
    }
}
