//! An image from two sources, the board at power-on, and the version of all this.
ghost use Rattle.std.specs.Prelude.{◌≡◌, ◌≤◌, ◌<◌, length};
ghost use Rattle.board_base.specs.Board.{board_at_power_on};
ghost use Rattle.rom_image.specs.declared.image.TheConstants.{IMAGE_LEN};
ghost use Rattle.save_state.specs.declared.TheConstants.{STATE_LEN};
ghost use Rattle.save_state.specs.StateBytes.{state_bytes};
ghost use Rattle.run_stretch.specs.Answers.{AnswersSources, Refuses, call_of, put_in, report_of};
ghost use Rattle.run_stretch.specs.declared.calls.report.Status.TheVariants.{Done, NoRoom};
ghost use Rattle.run_stretch.specs.Statuses.{number_of};

use crate::calls::answer::{put, report_number, report_words};
use crate::calls::report::{GravitarReport, Status, place_of_sources, status_of_sources};
use crate::{assembling, stretch};
use rom_image::IMAGE_LEN;
use save_state::STATE_LEN;
use std::alloc::Global;

/// The version of these calls: another number where one of them changes.
pub fn version() -> u32
    ensures { result ≡ 3 }
{
    3
}

/// Puts the board at power-on, 4,356 bytes, into a buffer of so many or more.
pub fn power_on(board: &mut [u8]) -> u32
    ensures short { length board.old < STATE_LEN → (result ≡ number_of NoRoom) × (board.new ≡ board.old) }
    ensures done { STATE_LEN ≤ length board.old → (result ≡ number_of Done) × (board.new ≡ put_in (state_bytes board_at_power_on) board.old) }
{
    if board.len() < STATE_LEN {
        return Status::NoRoom.number();
    }
    put(&stretch::power_on(), board);
    Status::Done.number()
}

/// Assembles the processor's source and then the generator's into one image of 43,008 bytes, which
/// has zeros elsewhere. Where a source is refused, `note` gets the words of it, `place` says the
/// line, and the image stays as it was.
pub fn assemble(
    alloc: Global,
    processor: &[u8],
    generator: &[u8],
    image: &mut [u8],
    note: &mut [u8],
    report: &mut GravitarReport,
) -> u32
    ensures short { length image.old < IMAGE_LEN → Refuses NoRoom (report_of 0 IMAGE_LEN 0) (call_of image.old image.new note.old note.new report.new result) }
    ensures answer { IMAGE_LEN ≤ length image.old → AnswersSources processor.now generator.now (call_of image.old image.new note.old note.new report.new result) }
{
    if image.len() < IMAGE_LEN {
        return report_number(Status::NoRoom, IMAGE_LEN as u64, 0, report);
    }
    match assembling::assemble(alloc, processor, generator) {
        Ok(made) => {
            put(made.bytes(), image);
            report_number(Status::Done, IMAGE_LEN as u64, 0, report)
        }
        Err(fault) => {
            let Ok(words) = format!(in alloc; "{fault}") else {
                return report_number(Status::NoMemory, 0, 0, report);
            };
            report_words(
                words.as_bytes(),
                place_of_sources(&fault),
                status_of_sources(&fault),
                note,
                report,
            )
        }
    }
}
