ghost use Rattle.std.specs.Prelude.{◌≡◌, ℕ, ◌+◌, List, [], ◌∷◌, ◌++◌, length, ◌≤◌};
ghost use Rattle.board_base.specs.declared.record.Record as declared_record;
ghost use Rattle.run_summary.specs.Sizes.{AreFew, IsSmall, IsSmallTally, most_records};
ghost use Rattle.run_windows.specs.RecordObserver.{recorded};
ghost use Rattle.run_summary.specs.Summary.{no_records, summary_of, tally_of, together};

use board_base::{Record, Trails};

/// What the records of a run come to: the strokes of the generator, the levels of each POKEY, the
/// latch writes and the watchdog's resets, and the sum of the intensities of all strokes and of all
/// four levels of each record of levels.
#[derive(Clone, Copy, Debug, PartialEq, Eq)]
pub struct Summary {
    pub strokes: u64,
    pub levels1: u64,
    pub levels2: u64,
    pub latches: u64,
    pub resets: u64,
    pub sum: u64,
}

/// The records of one trail by kind, and the sum of their intensities and levels.
#[derive(Clone, Copy)]
struct Tally {
    strokes: u64,
    levels: u64,
    latches: u64,
    resets: u64,
    sum: u64,
}

impl Tally {
    /// The tally of no records.
    #[tactic(auto, unfolding(crate::specs::Summary::tally_of))]
    fn none() -> Tally
        ensures { result ≡ tally_of [] }
    {
        Tally {
            strokes: 0,
            levels: 0,
            latches: 0,
            resets: 0,
            sum: 0,
        }
    }

    /// One record more.
    fn with(self, made: &Record) -> Tally
        requires room { IsSmallTally most_records self }
        ensures tally { (before : List declared_record.Record) → self ≡ tally_of before → result ≡ tally_of (before ++ made.now ∷ []) }
        ensures small { (n : ℕ) → IsSmallTally n self → IsSmallTally (n + 1) result }
    {
        match *made {
            Record::Stroke { intensity, .. } => Tally {
                strokes: self.strokes + 1,
                sum: self.sum + u64::from(intensity),
                ..self
            },
            Record::Levels { l1, l2, l3, l4, .. } => Tally {
                levels: self.levels + 1,
                sum: self.sum + u64::from(l1) + u64::from(l2) + u64::from(l3) + u64::from(l4),
                ..self
            },
            Record::Latch { .. } => Tally {
                latches: self.latches + 1,
                ..self
            },
            Record::WatchdogReset { .. } => Tally {
                resets: self.resets + 1,
                ..self
            },
        }
    }

    /// The tally of a trail's records.
    fn of(records: &[Record]) -> Tally
        requires few { length records.now ≤ most_records }
        ensures tally { result ≡ tally_of records.now }
        ensures small { IsSmallTally (length records.now) result }
    {
        let mut tally = Tally::none();
        for record in records {
            tally = tally.with(record);
        }
        tally
    }
}

impl Summary {
    /// The summary of no records.
    #[tactic(auto, unfolding(crate::specs::Summary::summary_of))]
    pub(crate) fn none() -> Summary
        ensures summary { result ≡ summary_of no_records }
        ensures small { IsSmall 0 result }
    {
        Summary {
            strokes: 0,
            levels1: 0,
            levels2: 0,
            latches: 0,
            resets: 0,
            sum: 0,
        }
    }

    /// The summary of the records of four trails.
    pub(crate) fn of(trails: &Trails<'_>) -> Summary
        requires few { AreFew most_records (recorded trails.now.vector.now.records trails.now.sound1.now.records
            trails.now.sound2.now.records trails.now.board.now.records) }
        ensures summary { result ≡ summary_of (recorded trails.now.vector.now.records trails.now.sound1.now.records
            trails.now.sound2.now.records trails.now.board.now.records) }
        ensures small { (n : ℕ) → AreFew n (recorded trails.now.vector.now.records trails.now.sound1.now.records
            trails.now.sound2.now.records trails.now.board.now.records) → IsSmall n result }
    {
        let vector = Tally::of(trails.vector.records());
        let sound1 = Tally::of(trails.sound1.records());
        let sound2 = Tally::of(trails.sound2.records());
        let board = Tally::of(trails.board.records());
        Summary {
            strokes: vector.strokes,
            levels1: sound1.levels,
            levels2: sound2.levels,
            latches: board.latches,
            resets: board.resets,
            sum: vector.sum + sound1.sum + sound2.sum,
        }
    }

    /// Both summaries in one.
    pub(crate) fn with(self, more: Summary) -> Summary
        requires first { IsSmall most_records self }
        requires more { IsSmall most_records more }
        ensures { result ≡ together self more }
    {
        Summary {
            strokes: self.strokes + more.strokes,
            levels1: self.levels1 + more.levels1,
            levels2: self.levels2 + more.levels2,
            latches: self.latches + more.latches,
            resets: self.resets + more.resets,
            sum: self.sum + more.sum,
        }
    }
}
