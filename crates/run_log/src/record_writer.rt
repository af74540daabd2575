ghost use Rattle.run_log.specs.Slice.{AreTrails, bytes_of_records};
ghost use Rattle.run_log.specs.LogParts.{records-taken_in_parts};

use board_base::Trails;
use log_text::write_records;
use outside_io::{Sink, SinkFault};
use run_windows::RecordObserver;

/// Writes 40 bytes for each record, in the order in which `LogWriter` has its lines.
#[derive(Clone, Copy, Debug, PartialEq, Eq)]
pub struct RecordWriter;

impl RecordObserver for RecordWriter {
    ghost can_take = { λ _ _ records _. AreTrails records };

    ghost writes = { λ _ records _. bytes_of_records records };

    ghost next = { λ w _ _. w };

    ghost in_parts = { records-taken_in_parts };

    fn take<O: Sink>(
        &mut self,
        trails: &Trails<'_>,
        _upto: u64,
        out: &mut O,
    ) -> Result<(), SinkFault> {
        write_records(trails, out)
    }
}
