//! Stretches of a run.
ghost use Rattle.std.specs.Prelude.{◌≡◌, ◌≤◌, ◌<◌, ◌⊎◌, IfOk, length};
ghost use Rattle.board_base.specs.declared.board.TheConstants.{CLOCK_LIMIT};
ghost use Rattle.run_windows.specs.Windows.{clock_in};
ghost use Rattle.save_state.specs.declared.TheConstants.{STATE_LEN};
ghost use Rattle.sound_pcm.specs.declared.mixer.TheConstants.{MAX_PER};
ghost use Rattle.run_stretch.specs.Stretches.{IsAdvanced, IsRecorded, IsSampled};
ghost use Rattle.run_stretch.specs.Answers.{AnswersOver, AnswersStretch, Refuses, call_of, end_asked, is_asked, report_of};
ghost use Rattle.run_stretch.specs.declared.calls.report.Status.TheVariants.{BadNumber};

use crate::calls::answer::{give, report_fault, report_number};
use crate::calls::report::{GravitarReport, Status};
use crate::ended::Stretch;
use crate::fault::StretchFault;
use crate::parts::Start;
use crate::stretch;
use board_base::CLOCK_LIMIT;
use run_windows::Until;
use sound_pcm::MAX_PER;
use std::alloc::Global;

/// Whether a number means yes.
fn is_so(number: u32) -> bool
    ensures { result ≡ is_asked number }
{
    0 < number
}

/// How far a stretch goes.
fn end(boundary: u32, clock: u64) -> Until
    ensures until { result ≡ end_asked boundary clock }
    ensures clock { clock_in result ≡ clock }
{
    if is_so(boundary) {
        Until::Boundary(clock)
    } else {
        Until::Clock(clock)
    }
}

/// Answers a stretch, or its refusal.
fn answer(
    alloc: Global,
    came: Result<Stretch, StretchFault>,
    board: &mut [u8],
    buffer: &mut [u8],
    report: &mut GravitarReport,
) -> u32
    requires board { IfOk came (λ _. length board.old ≡ STATE_LEN) }
    requires fits { IfOk came (λ s. length s.output.items ≤ s.wanted) }
    ensures { AnswersStretch came (call_of board.old board.new buffer.old buffer.new report.new result) }
{
    match came {
        Ok(stretch) => give(&stretch, board, buffer, report),
        Err(fault) => report_fault(alloc, &fault, buffer, report),
    }
}

/// Runs an image with a tape from a saved board to a clock, or where `boundary` isn't 0 to the
/// first boundary that isn't before it, and puts the board at the end in its place. The buffer gets
/// the lines of the records on the way, as the log of `gravitar run` has them, without a last line.
///
/// `image` is 43,008 bytes, `board` 4,356, `tape` a text, `clock` 2^48 at most; with `timers` other
/// than 0 the POKEYs' requests reach the interrupt line. Where bytes are refused, the buffer gets
/// the words of it. Where the buffer is too short, `used` says what is wanted. A call that isn't
/// done leaves the board as it was.
pub fn advance(
    alloc: Global,
    image: &[u8],
    board: &mut [u8],
    tape: &[u8],
    clock: u64,
    boundary: u32,
    timers: u32,
    text: &mut [u8],
    report: &mut GravitarReport,
) -> u32
    ensures range { CLOCK_LIMIT < clock → Refuses BadNumber (report_of 0 0 clock) (call_of board.old board.new text.old text.new report.new result) }
    ensures answer { clock ≤ CLOCK_LIMIT → AnswersOver image.now board.old tape.now (IsAdvanced (length text.old) (is_asked timers) (end_asked boundary clock))
        (call_of board.old board.new text.old text.new report.new result) }
{
    if CLOCK_LIMIT < clock {
        return report_number(Status::BadNumber, 0, clock, report);
    }
    let until = end(boundary, clock);
    let start = Start {
        image,
        board,
        tape,
        timers: is_so(timers),
    };
    let came = stretch::advance(alloc, start, until, text.len());
    answer(alloc, came, board, text, report)
}

/// Runs an image with a tape as `advance` does. The buffer gets the records on the way, 40 bytes
/// each: those of which `advance` gives lines, in the same order. A record is its clock in 8 bytes,
/// its kind in 4 (0 a stroke, 1 and 2 the levels of a POKEY, 3 a write of the latch, 4 a watchdog
/// reset), six numbers of 4 (of a stroke x0, y0, x1, y1, colour and intensity, of levels all four,
/// of the latch its byte), and 4 bytes of 0, each number with its lowest byte first.
pub fn records(
    alloc: Global,
    image: &[u8],
    board: &mut [u8],
    tape: &[u8],
    clock: u64,
    boundary: u32,
    timers: u32,
    array: &mut [u8],
    report: &mut GravitarReport,
) -> u32
    ensures range { CLOCK_LIMIT < clock → Refuses BadNumber (report_of 0 0 clock) (call_of board.old board.new array.old array.new report.new result) }
    ensures answer { clock ≤ CLOCK_LIMIT → AnswersOver image.now board.old tape.now (IsRecorded (length array.old) (is_asked timers) (end_asked boundary clock))
        (call_of board.old board.new array.old array.new report.new result) }
{
    if CLOCK_LIMIT < clock {
        return report_number(Status::BadNumber, 0, clock, report);
    }
    let until = end(boundary, clock);
    let start = Start {
        image,
        board,
        tape,
        timers: is_so(timers),
    };
    let came = stretch::records(alloc, start, until, array.len());
    answer(alloc, came, board, array, report)
}

/// Runs an image with a tape from a saved board to the first boundary that isn't before a clock,
/// and puts the board at the end in its place. The buffer gets a sample for each `per` clocks, 1 to
/// 65,535: the sum of both POKEYs' eight levels over them, as four bytes, the lowest first. Clocks
/// at the end that are no whole group give none. All else is as in `advance`.
pub fn pcm(
    alloc: Global,
    image: &[u8],
    board: &mut [u8],
    tape: &[u8],
    clock: u64,
    per: u32,
    timers: u32,
    samples: &mut [u8],
    report: &mut GravitarReport,
) -> u32
    ensures range { CLOCK_LIMIT < clock → Refuses BadNumber (report_of 0 0 clock) (call_of board.old board.new samples.old samples.new report.new result) }
    ensures group { clock ≤ CLOCK_LIMIT → (per < 1) ⊎ (MAX_PER < per) → Refuses BadNumber (report_of 0 0 per) (call_of board.old board.new samples.old samples.new report.new result) }
    ensures answer { clock ≤ CLOCK_LIMIT → 1 ≤ per → per ≤ MAX_PER → AnswersOver image.now board.old tape.now (IsSampled (length samples.old) (is_asked timers) clock per)
        (call_of board.old board.new samples.old samples.new report.new result) }
{
    if CLOCK_LIMIT < clock {
        return report_number(Status::BadNumber, 0, clock, report);
    }
    if per < 1 || MAX_PER < per {
        return report_number(Status::BadNumber, 0, u64::from(per), report);
    }
    let start = Start {
        image,
        board,
        tape,
        timers: is_so(timers),
    };
    let came = stretch::sample(alloc, start, clock, per, samples.len());
    answer(alloc, came, board, samples, report)
}
