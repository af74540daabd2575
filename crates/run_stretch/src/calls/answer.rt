//! Answers are put into the caller's bytes.
ghost use Rattle.std.specs.Prelude.{◌≡◌, ◌≤◌, ◌⊎◌, ℕ, List, length};
ghost use Rattle.save_state.specs.declared.TheConstants.{STATE_LEN};
ghost use Rattle.run_stretch.specs.Texts.{stretch_fault_text};
ghost use Rattle.run_stretch.specs.Answers.{Gives, StatesOrNot, WantsRoom, call_of, noted_in, put_in, report_of};
ghost use Rattle.run_stretch.specs.Places.{place_of_stretch};
ghost use Rattle.run_stretch.specs.Statuses.{number_of, status_of_stretch};

use crate::calls::report::{GravitarReport, Status, place_of, status_of};
use crate::ended::Stretch;
use crate::fault::StretchFault;
use save_state::STATE_LEN;
use std::alloc::Global;

/// Puts bytes in front of a buffer that has room for them.
pub fn put(bytes: &[u8], buffer: &mut [u8])
    requires room { length bytes.now ≤ length buffer.old }
    ensures { buffer.new ≡ put_in bytes.now buffer.old }
{
    buffer[..bytes.len()].copy_from_slice(bytes);
}

/// Puts as many of the first bytes in front of a buffer as it has room for.
fn note(words: &[u8], buffer: &mut [u8])
    ensures { buffer.new ≡ noted_in words.now buffer.old }
{
    let n = words.len().min(buffer.len());
    put(&words[..n], buffer);
}

/// Answers with a status and numbers alone.
pub fn report_number(status: Status, used: u64, place: u64, report: &mut GravitarReport) -> u32
    ensures number { result ≡ number_of status }
    ensures report { report.new ≡ report_of 0 used place }
{
    *report = GravitarReport {
        clock: 0,
        used,
        place,
    };
    status.number()
}

/// Answers a refusal in words.
pub fn report_words(
    words: &[u8],
    place: u64,
    status: Status,
    buffer: &mut [u8],
    report: &mut GravitarReport,
) -> u32
    ensures number { result ≡ number_of status }
    ensures report { report.new ≡ report_of 0 (length words.now) place }
    ensures buffer { buffer.new ≡ noted_in words.now buffer.old }
{
    note(words, buffer);
    report_number(status, words.len() as u64, place, report)
}

/// Answers the refusal of a stretch, where there is memory for its words.
pub fn report_fault(
    alloc: Global,
    fault: &StretchFault,
    buffer: &mut [u8],
    report: &mut GravitarReport,
) -> u32
    ensures { (place : List ℕ) → StatesOrNot (stretch_fault_text fault.now) (place_of_stretch fault.now) (status_of_stretch fault.now)
        (call_of place place buffer.old buffer.new report.new result) }
{
    let Ok(words) = format!(in alloc; "{fault}") else {
        return report_number(Status::NoMemory, 0, 0, report);
    };
    report_words(
        words.as_bytes(),
        place_of(fault),
        status_of(fault),
        buffer,
        report,
    )
}

/// Answers what a stretch came to.
pub fn give(
    stretch: &Stretch,
    board: &mut [u8],
    buffer: &mut [u8],
    report: &mut GravitarReport,
) -> u32
    requires board { length board.old ≡ STATE_LEN }
    requires fits { length stretch.now.output.items ≤ stretch.now.wanted }
    ensures { (Gives stretch.now (call_of board.old board.new buffer.old buffer.new report.new result))
        ⊎ WantsRoom stretch.now (call_of board.old board.new buffer.old buffer.new report.new result) }
{
    let used = stretch.wanted;
    if (buffer.len() as u64) < used {
        return report_number(Status::NoRoom, used, 0, report);
    }
    put(&stretch.output, buffer);
    board.copy_from_slice(&stretch.board);
    *report = GravitarReport {
        clock: stretch.clock,
        used,
        place: 0,
    };
    if stretch.jammed {
        Status::Jammed.number()
    } else {
        Status::Done.number()
    }
}
