ghost use Rattle.std.specs.Prelude.{◌≡◌, []};
ghost use Rattle.run_windows.specs.RecordObserver.{recorded};
ghost use Rattle.run_summary.specs.Counter.{HasRoom, count_of, counted};
ghost use Rattle.run_summary.specs.CounterLaws.{counted_in_parts};
ghost use Rattle.run_summary.specs.Summary.{no_records, summary_of};

use crate::summary::Summary;
use board_base::Trails;
use outside_io::{Sink, SinkFault};
use run_windows::RecordObserver;
use std::marker::Model;

/// Counts the records of a run, and writes nothing.
#[derive(Drop)]
pub(crate) struct Counter {
    total: Summary,
    records: u64,
}

impl Model for Counter {
    ghost use Rattle.run_summary.specs.Counter.{CounterValue};
    ghost use Rattle.run_summary.specs.Sizes.{IsSmall};

    ghost Value = { CounterValue };

    ghost view = { λ c. record { total = c.total; records = c.records } };

    ghost invariant = { λ c. IsSmall c.records c.total };
}

/// How many records there are in four trails.
fn count_records(trails: &Trails<'_>) -> u64
    requires { HasRoom (record { total = summary_of no_records; records = 0 }) (recorded trails.now.vector.now.records trails.now.sound1.now.records
        trails.now.sound2.now.records trails.now.board.now.records) }
    ensures { result ≡ count_of (recorded trails.now.vector.now.records trails.now.sound1.now.records
        trails.now.sound2.now.records trails.now.board.now.records) }
{
    let vector = trails.vector.records().len() as u64;
    let sound1 = trails.sound1.records().len() as u64;
    let sound2 = trails.sound2.records().len() as u64;
    let board = trails.board.records().len() as u64;
    vector + sound1 + sound2 + board
}

impl Counter {
    /// No record is counted.
    pub(crate) fn new() -> Counter
        ensures { result ≡ record { total = summary_of no_records; records = 0 } }
    {
        Counter {
            total: Summary::none(),
            records: 0,
        }
    }

    /// What the records come to.
    pub(crate) fn total(&self) -> Summary
        ensures { result ≡ self.now.total }
    {
        self.total
    }
}

impl RecordObserver for Counter {
    ghost can_take = { λ c _ records _. HasRoom c records };

    ghost writes = { λ _ _ _. [] };

    ghost next = { λ c records _. counted c records };

    ghost in_parts = { counted_in_parts };

    fn take<O: Sink>(
        &mut self,
        trails: &Trails<'_>,
        _upto: u64,
        _out: &mut O,
    ) -> Result<(), SinkFault> {
        let more = Summary::of(trails);
        self.records += count_records(trails);
        self.total = self.total.with(more);
        Ok(())
    }
}
