ghost use Rattle.std.specs.Prelude.{◌≡◌, ◌+◌, ◌≤◌, [], ◌++◌, length};
ghost use Rattle.outside_io.specs.Causes.{HasCause};
ghost use Rattle.outside_io.specs.Sink.{Takes};
ghost use Rattle.run_summary.specs.SoakText.{count_line, soak_text};

use crate::summary::Summary;
use arrayvec::ArrayVec;
use outside_io::{Sink, SinkFault};
use std::marker::Model;
use text_line::Line;

/// Room for the bytes of seven lines.
const ROOM: usize = 224;

/// Lines on their way to a sink. They take no memory.
#[derive(Drop)]
struct Lines {
    bytes: ArrayVec<u8, ROOM>,
}

impl Model for Lines {
    ghost use Rattle.std.specs.Prelude.{ℕ, ◌≤◌, List, length};
    ghost use Rattle.run_summary.specs.declared.text.TheConstants.{ROOM};

    ghost Value = { List ℕ };

    ghost view = { λ l. l.bytes.items };

    ghost invariant = { λ l. length l.bytes.items ≤ ROOM };
}

impl Lines {
    /// No lines.
    fn new() -> Lines
        ensures { result ≡ [] }
    {
        Lines {
            bytes: ArrayVec::new(),
        }
    }

    /// One line more, of a word and a number.
    fn with(mut self, word: &str, n: u64) -> Lines
        requires word { length word.now ≤ 8 }
        requires room { length self + length word.now + 22 ≤ ROOM }
        ensures text { result ≡ self ++ count_line word.now n }
        ensures len { length result ≤ length self + length word.now + 22 }
    {
        let line = Line::of(word).number(n).end();
        // There is room for it, so it is put.
        let _put = self.bytes.try_extend_from_slice(line.bytes()).is_ok();
        self
    }

    /// The bytes of the lines.
    fn bytes(&self) -> &[u8]
        ensures { result.now ≡ self.now }
    {
        self.bytes.as_slice()
    }
}

/// Writes the seven lines of a summary and of the clock at which its run ended, in one write.
#[tactic(auto, unfolding(crate::specs::SoakText::soak_text))]
pub(crate) fn write_summary<O: Sink>(
    summary: &Summary,
    clock: u64,
    out: &mut O,
) -> Result<(), SinkFault>
    ensures taken { Takes (O.taken out.old) (O.taken out.new) (soak_text summary.now clock) result }
    ensures cause { HasCause (O.faults out.old) (O.faults out.new) result }
{
    let lines = Lines::new()
        .with("strokes", summary.strokes)
        .with("levels1", summary.levels1)
        .with("levels2", summary.levels2)
        .with("latches", summary.latches)
        .with("resets", summary.resets)
        .with("sum", summary.sum)
        .with("clock", clock);
    out.write(lines.bytes())
}
