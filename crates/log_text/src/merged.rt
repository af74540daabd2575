ghost use Rattle.std.specs.Prelude.{◌≡◌, ℕ, List, ◌++◌};
ghost use Rattle.board_base.specs.Records.{IsTrailOf, MadeBetween};
ghost use Rattle.board_base.specs.declared.record.Record.{Record as record_value};
ghost use Rattle.log_text.specs.LogText.{PartRecord, IsInOrder, MergedIsOneLog, merged, merged_text};
ghost use Rattle.log_text.specs.RecordBytes.{records_bytes};
ghost use Rattle.outside_io.specs.Causes.{HasCause};
ghost use Rattle.outside_io.specs.Sink.{Takes};
ghost use Rattle.std.specs.Iterator.{YieldsFirst, item_count};
ghost use Rattle.log_text.specs.Merging.{first_clock, earliest_of, TakesAt, AreSorted};

use crate::log_line::LogLine;
use crate::record_bytes::RecordRow;
use crate::record_line::set_line;
use board_base::{Part, Record, Trails, sooner};
use outside_io::{BlockWriter, Sink, SinkFault};

/// The records of four trails by clock, within a clock in the order of the parts.
#[derive(Clone, Copy)]
pub(crate) struct Merge<'a> {
    vector: &'a [Record],
    sound1: &'a [Record],
    sound2: &'a [Record],
    board: &'a [Record],
}

/// The clock of the first record.
fn first(records: &[Record]) -> Option<u64>
    ensures { result ≡ first_clock records.now }
{
    records.first().map(Record::clock)
}

/// Takes the first record where it came in this clock.
fn take_at(records: &mut &[Record], at: u64) -> Option<Record>
    ensures { TakesAt at records.old.now records.new.now result }
{
    let (record, others) = records.split_first()?;
    if record.clock() != at {
        return None;
    }
    *records = others;
    Some(*record)
}

impl<'a> Merge<'a> {
    /// The records of these trails.
    pub(crate) fn of(trails: &Trails<'a>) -> Merge<'a>
        ensures vector { result.vector.now ≡ trails.now.vector.now.records }
        ensures sound1 { result.sound1.now ≡ trails.now.sound1.now.records }
        ensures sound2 { result.sound2.now ≡ trails.now.sound2.now.records }
        ensures board { result.board.now ≡ trails.now.board.now.records }
    {
        Merge {
            vector: trails.vector.records(),
            sound1: trails.sound1.records(),
            sound2: trails.sound2.records(),
            board: trails.board.records(),
        }
    }

    /// The earliest clock of a record that is left.
    fn earliest(&self) -> Option<u64>
        ensures { result ≡ earliest_of self.now.vector.now self.now.sound1.now self.now.sound2.now self.now.board.now }
    {
        let board = sooner(first(self.sound2), first(self.board));
        sooner(first(self.vector), sooner(first(self.sound1), board))
    }
}

impl Iterator for Merge<'_> {
    type Item = (Part, Record);

    ghost can_next = { λ m. AreSorted m.vector.now m.sound1.now m.sound2.now m.board.now };

    ghost next_gives = { YieldsFirst (λ m. merged m.vector.now m.sound1.now m.sound2.now m.board.now) };

    ghost remaining = { item_count (λ m. merged m.vector.now m.sound1.now m.sound2.now m.board.now) };

    #[tactic(auto, unfolding(board_base::specs::Sooner::sooner_of))]
    fn next(&mut self) -> Option<(Part, Record)> {
        let Some(clock) = self.earliest() else {
            return None;
        };
        if let Some(record) = take_at(&mut self.vector, clock) {
            return Some((Part::Generator, record));
        }
        if let Some(record) = take_at(&mut self.sound1, clock) {
            return Some((Part::Pokey1, record));
        }
        if let Some(record) = take_at(&mut self.sound2, clock) {
            return Some((Part::Pokey2, record));
        }
        let record = take_at(&mut self.board, clock)?;
        Some((Part::Board, record))
    }
}

/// Writes a line for each record, earlier clocks first. Lines of one clock come as the parts move
/// in it: generator, POKEY 1, POKEY 2, and then what the rest of the board recorded. The lines go
/// out in blocks, each in one write, and the first write that fails is the last.
pub fn write_merged<O: Sink>(trails: &Trails<'_>, out: &mut O) -> Result<(), SinkFault>
    requires vector { IsTrailOf Part.Generator trails.now.vector.now.records }
    requires sound1 { IsTrailOf Part.Pokey1 trails.now.sound1.now.records }
    requires sound2 { IsTrailOf Part.Pokey2 trails.now.sound2.now.records }
    requires board { IsTrailOf Part.Board trails.now.board.now.records }
    ensures taken { Takes (O.taken out.old) (O.taken out.new)
        (merged_text trails.now.vector.now.records trails.now.sound1.now.records
        trails.now.sound2.now.records trails.now.board.now.records) result }
    ensures cause { HasCause (O.faults out.old) (O.faults out.new) result }
{
    let mut block = BlockWriter::new();
    let mut line = LogLine::empty();
    for (part, record) in Merge::of(trails) {
        set_line(&mut line, part, record);
        block.push(line.bytes(), out)?;
    }
    block.flush(out)
}

/// Writes 40 bytes for each record, in the order of `write_merged` and in blocks as there.
pub fn write_records<O: Sink>(trails: &Trails<'_>, out: &mut O) -> Result<(), SinkFault>
    requires vector { IsTrailOf Part.Generator trails.now.vector.now.records }
    requires sound1 { IsTrailOf Part.Pokey1 trails.now.sound1.now.records }
    requires sound2 { IsTrailOf Part.Pokey2 trails.now.sound2.now.records }
    requires board { IsTrailOf Part.Board trails.now.board.now.records }
    ensures taken { Takes (O.taken out.old) (O.taken out.new)
        (records_bytes (merged trails.now.vector.now.records trails.now.sound1.now.records
        trails.now.sound2.now.records trails.now.board.now.records)) result }
    ensures cause { HasCause (O.faults out.old) (O.faults out.new) result }
{
    let mut block = BlockWriter::new();
    let mut row = RecordRow::empty();
    for (part, record) in Merge::of(trails) {
        row.set_record(part, record);
        block.push(row.bytes(), out)?;
    }
    block.flush(out)
}

/// The lines of four trails are those of the one list whose records they share out. It states a
/// law, and does nothing.
#[tactic(auto, using(crate::proofs::LogLaws::merged_is_one_log))]
pub fn one_log()
    ensures { (records : List PartRecord) → IsInOrder records → MergedIsOneLog records }
{}

/// The log of the records up to a clock, and then that of the records from it on up to a later one,
/// is the log of all of them. It states a law, and does nothing.
pub fn logs_join()
    ensures { (from at upto : ℕ) → (v1 v2 a1 a2 b1 b2 w1 w2 : List record_value)
        → MadeBetween Part.Generator from v1 at → MadeBetween Part.Generator at v2 upto
        → MadeBetween Part.Pokey1 from a1 at → MadeBetween Part.Pokey1 at a2 upto
        → MadeBetween Part.Pokey2 from b1 at → MadeBetween Part.Pokey2 at b2 upto
        → MadeBetween Part.Board from w1 at → MadeBetween Part.Board at w2 upto
        → merged_text (v1 ++ v2) (a1 ++ a2) (b1 ++ b2) (w1 ++ w2) ≡ merged_text v1 a1 b1 w1 ++ merged_text v2 a2 b2 w2 }
{}
