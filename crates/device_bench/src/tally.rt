ghost use Rattle.std.specs.Prelude.{◌≡◌, fold};
ghost use Rattle.device_bench.specs.Tally.{empty_tally, with_record};

use board_base::Record;

/// What records there were: how many, and the sum of their clocks.
#[derive(Clone, Copy, PartialEq, Eq)]
pub struct Tally {
    pub records: u64,
    pub sum: u64,
}

impl Tally {
    /// No record.
    pub fn new() -> Tally
        ensures { result ≡ empty_tally }
    {
        Tally { records: 0, sum: 0 }
    }

    /// Counts a record.
    #[tactic(auto, unfolding(crate::specs::Tally::with_record))]
    fn count(self, seen: Record) -> Tally
        ensures { result ≡ with_record self seen }
    {
        Tally {
            records: self.records.saturating_add(1),
            sum: self.sum.saturating_add(seen.clock()),
        }
    }

    /// Counts these records too.
    pub fn take(&mut self, records: &[Record])
        ensures { self.new ≡ fold with_record self.old records.now }
    {
        for seen in records {
            *self = self.count(*seen);
        }
    }
}
