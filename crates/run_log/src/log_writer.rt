ghost use Rattle.run_log.specs.Slice.{AreTrails, text_of_records};
ghost use Rattle.run_log.specs.LogParts.{log-taken_in_parts};

use board_base::Trails;
use log_text::write_merged;
use outside_io::{Sink, SinkFault};
use run_windows::RecordObserver;

/// Writes the log: a line for each record, by clock and part.
#[derive(Clone, Copy, Debug, PartialEq, Eq)]
pub struct LogWriter;

impl RecordObserver for LogWriter {
    ghost can_take = { λ _ _ records _. AreTrails records };

    ghost writes = { λ _ records _. text_of_records records };

    ghost next = { λ w _ _. w };

    ghost in_parts = { log-taken_in_parts };

    fn take<O: Sink>(
        &mut self,
        trails: &Trails<'_>,
        _upto: u64,
        out: &mut O,
    ) -> Result<(), SinkFault> {
        write_merged(trails, out)
    }
}
