ghost use Rattle.std.specs.Prelude.{◌≡◌, ◌+◌, ◌≤◌, [], ◌∷◌, IfOk, length};
ghost use Rattle.board_base.specs.Trail.{Extended};

use crate::memory::OutOfMemory;
use crate::record::Record;
use std::alloc::Global;
use std::marker::Model;

/// A list of records, with the memory for those to come.
///
/// `spare` is how many more it takes, and its first room is the `spare` that it began with; both
/// count records.
#[derive(Drop)]
pub struct Trail {
    records: Vec<Record>,
}

impl Model for Trail {
    ghost use Rattle.std.specs.Prelude.{◌-◌, ◌≤◌, vec_len, vec_capacity};
    ghost use Rattle.board_base.specs.Trail.{TrailValue};

    ghost Value = { TrailValue };

    ghost view = { λ t. record {
      records = t.records.items;
      spare = vec_capacity t.records - vec_len t.records;
      room = vec_capacity t.records;
    } };

    ghost invariant = { λ t. vec_len t.records ≤ vec_capacity t.records };
}

impl Trail {
    /// An empty trail for `room` records.
    pub fn new(alloc: Global, room: usize) -> Result<Trail, OutOfMemory>
        ensures empty { IfOk result (λ t. t.records ≡ []) }
        ensures spare { IfOk result (λ t. room ≤ t.spare) }
        ensures room { IfOk result (λ t. t.room ≡ t.spare) }
    {
        let records = Vec::with_capacity(alloc, room)?;
        Ok(Trail { records })
    }

    /// Appends a record, in the memory that is there.
    pub fn push(&mut self, r: Record)
        requires { 1 ≤ self.old.spare }
        ensures { Extended self.old self.new (r ∷ []) }
    {
        self.records.push_reserved(r);
    }

    /// The records since the last clearing, in order.
    pub fn records(&self) -> &[Record]
        ensures records { result.now ≡ self.now.records }
        ensures room { self.now.spare + length self.now.records ≡ self.now.room }
    {
        self.records.as_slice()
    }

    /// How many more records it takes.
    pub fn spare(&self) -> usize
        ensures { result ≡ self.now.spare }
    {
        self.records.capacity() - self.records.len()
    }

    /// Forgets the records, and has the first room again.
    pub fn clear(&mut self)
        ensures empty { self.new.records ≡ [] }
        ensures spare { self.new.spare ≡ self.old.room }
        ensures room { self.new.room ≡ self.old.room }
    {
        self.records.clear();
    }
}

/// The four trails of a board, each with the records of one part.
#[derive(Clone, Copy)]
pub struct Trails<'a> {
    pub vector: &'a Trail,
    pub sound1: &'a Trail,
    pub sound2: &'a Trail,
    pub board: &'a Trail,
}
