//! The frame under way, and the lines of those that end.
ghost use Rattle.std.specs.Prelude.{◌≡◌, ◌+◌, ◌<◌, ◌≤◌, ◌^◌, [], ◌∷◌, ◌++◌, length, OnOk, map};
ghost use Rattle.std.specs.Fmt.{signed_decimal};
ghost use Rattle.outside_io.specs.Causes.{HasCause};
ghost use Rattle.outside_io.specs.Sink.{Takes};
ghost use Rattle.catchup_engine.specs.Starts.{marks_in};
ghost use Rattle.frame_list.specs.Events.{by_clock, stroke_of, through};

use crate::frame::{Bounds, Point};
use board_base::{Record, Trails};
use catchup_engine::{Reached, Trace};
use outside_io::{Sink, SinkFault};
use std::marker::Model;
use text_line::{LONGEST, Line};

/// The frame under way: contracts see its number from 0, its mark, the number of its strokes and,
/// where it has strokes and nowhere else, its bounds. It takes no memory.
#[derive(Drop)]
pub struct Frames {
    number: u64,
    mark: u64,
    strokes: u64,
    bounds: Option<Bounds>,
}

impl Model for Frames {
    ghost use Rattle.frame_list.specs.Frames.{FrameValue, IsFrame};

    ghost Value = { FrameValue };

    ghost view = { λ f. record { number = f.number; mark = f.mark; strokes = f.strokes; bounds = f.bounds } };

    ghost invariant = { λ f. IsFrame (record { number = f.number; mark = f.mark; strokes = f.strokes; bounds = f.bounds }) };
}

/// How many strokes at the front came up to this clock, its own strokes with them.
fn count_through(clock: u64, strokes: &[Record]) -> usize
    ensures { result ≡ through clock strokes.now }
{
    strokes
        .iter()
        .take_while(|stroke| stroke.clock() <= clock)
        .count()
}

/// Appends the four numbers of the bounds to a line.
fn put_bounds(line: Line, bounds: Bounds) -> Line
    requires { length line + 48 ≤ LONGEST }
    ensures text { result ≡ line ++ 32 ∷ signed_decimal bounds.least.x ++ 32 ∷ signed_decimal bounds.least.y ++ 32 ∷ signed_decimal bounds.greatest.x ++ 32 ∷ signed_decimal bounds.greatest.y }
    ensures len { length result ≤ length line + 48 }
{
    line.signed(bounds.least.x)
        .signed(bounds.least.y)
        .signed(bounds.greatest.x)
        .signed(bounds.greatest.y)
}

impl Frames {
    ghost use Rattle.frame_list.specs.Frames.{started, counted, ended, frame_text, frames_text, under_way};

    /// Frame 0, which begins at this clock and has no strokes yet.
    pub fn new(clock: u64) -> Frames
        ensures { result ≡ started 0 clock }
    {
        Frames {
            number: 0,
            mark: clock,
            strokes: 0,
            bounds: None,
        }
    }

    /// Counts the strokes of the trail and the trace's writes that start the generator, by clock, a
    /// stroke before such a write of its own clock. Each such write writes the line of the frame
    /// under way, and begins the next. A stroke may come later than the trace of its clock, as long
    /// as no write of a clock not below the stroke's came before it. After a fault the object is
    /// only to be dropped.
    pub fn take<O: Sink>(
        &mut self,
        trace: &Trace,
        trails: &Trails<'_>,
        out: &mut O,
    ) -> Result<(), SinkFault>
        requires number { self.old.number < 2 ^ 62 }
        requires strokes { self.old.strokes < 2 ^ 62 }
        ensures taken { Takes (O.taken out.old) (O.taken out.new) (frames_text (ended self.old (by_clock trails.now.vector.now.records (marks_in trace.now)))) result }
        ensures cause { HasCause (O.faults out.old) (O.faults out.new) result }
        ensures frame { OnOk result (self.new ≡ under_way self.old (by_clock trails.now.vector.now.records (marks_in trace.now))) }
    {
        self.take_marks(Reached::of(trace).starts(), trails, out)
    }

    /// Does what `take` does, by the clocks of the writes that start the generator, of which there
    /// are seven at most.
    pub fn take_marks<O: Sink>(
        &mut self,
        marks: &[u64],
        trails: &Trails<'_>,
        out: &mut O,
    ) -> Result<(), SinkFault>
        requires number { self.old.number < 2 ^ 62 }
        requires strokes { self.old.strokes < 2 ^ 62 }
        requires few { length marks.now ≤ 7 }
        ensures taken { Takes (O.taken out.old) (O.taken out.new) (frames_text (ended self.old (by_clock trails.now.vector.now.records marks.now))) result }
        ensures cause { HasCause (O.faults out.old) (O.faults out.new) result }
        ensures frame { OnOk result (self.new ≡ under_way self.old (by_clock trails.now.vector.now.records marks.now)) }
    {
        let mut strokes = trails.vector.records();
        for mark in marks {
            let (before, later) = strokes.split_at(count_through(*mark, strokes));
            self.count_all(before);
            self.begin(*mark, out)?;
            strokes = later;
        }
        self.count_all(strokes);
        Ok(())
    }

    /// Writes the line of the frame under way. After a fault the object is only to be dropped.
    pub fn end<O: Sink>(&mut self, out: &mut O) -> Result<(), SinkFault>
        ensures taken { Takes (O.taken out.old) (O.taken out.new) (frame_text self.old) result }
        ensures cause { HasCause (O.faults out.old) (O.faults out.new) result }
        ensures kept { self.new ≡ self.old }
    {
        out.write(self.words().end().bytes())
    }

    /// Writes the line of the frame under way, and begins the next one at this clock.
    fn begin<O: Sink>(&mut self, clock: u64, out: &mut O) -> Result<(), SinkFault>
        requires { self.old.number + 1 < 2 ^ 64 }
        ensures taken { Takes (O.taken out.old) (O.taken out.new) (frame_text self.old) result }
        ensures cause { HasCause (O.faults out.old) (O.faults out.new) result }
        ensures frame { OnOk result (self.new ≡ started (self.old.number + 1) clock) }
    {
        self.end(out)?;
        self.number += 1;
        self.mark = clock;
        self.strokes = 0;
        self.bounds = None;
        Ok(())
    }

    /// Counts these strokes.
    fn count_all(&mut self, strokes: &[Record])
        requires { self.old.strokes + length strokes.now < 2 ^ 64 }
        ensures { self.new ≡ under_way self.old (map stroke_of strokes.now) }
    {
        for stroke in strokes {
            self.count(stroke);
        }
    }

    /// Counts a stroke.
    fn count(&mut self, stroke: &Record)
        requires { self.old.strokes + 1 < 2 ^ 64 }
        ensures { self.new ≡ counted self.old stroke.now }
    {
        if let Record::Stroke { x0, y0, x1, y1, .. } = *stroke {
            let ends = Bounds::of(Point { x: x0, y: y0 }, Point { x: x1, y: y1 });
            self.strokes += 1;
            self.bounds = match self.bounds {
                None => Some(ends),
                Some(bounds) => Some(bounds.join(ends)),
            };
        }
    }

    /// The words of the line of the frame under way, without LF.
    #[tactic(auto, using(std::proofs::Common::append_assoc), unfolding(crate::specs::Frames::frame_text))]
    fn words(&self) -> Line
        ensures text { result ++ 10 ∷ [] ≡ frame_text self.now }
        ensures len { length result < LONGEST }
    {
        let line = Line::new(b'F', self.number)
            .number(self.mark)
            .number(self.strokes);
        match self.bounds {
            None => line,
            Some(bounds) => put_bounds(line, bounds),
        }
    }
}
