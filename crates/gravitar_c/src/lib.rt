//! The board for other languages: a static library that exports the calls of `run_stretch` and of
//! `command_calls`. `include/gravitar.h` at the top has them for C.
#![tactic(auto)]

ghost use Rattle.std.specs.Prelude.{◌≡◌, ◌≢◌, ◌-◌, ◌≤◌, ◌<◌, ◌⊎◌, ℕ, [], Err, Ok, Some, length};
ghost use Rattle.board_base.specs.Board.{board_at_power_on};
ghost use Rattle.board_base.specs.declared.board.TheConstants.{CLOCK_LIMIT};
ghost use Rattle.rom_image.specs.declared.image.TheConstants.{IMAGE_LEN};
ghost use Rattle.save_state.specs.StateBytes.{state_bytes};
ghost use Rattle.save_state.specs.declared.TheConstants.{STATE_LEN};
ghost use Rattle.sound_pcm.specs.declared.mixer.TheConstants.{MAX_PER};
ghost use Rattle.run_stretch.specs.Stretches.{IsAdvanced, IsRecorded, IsSampled};
ghost use Rattle.run_stretch.specs.Answers.{AnswersOver, AnswersSources, Refuses, call_of, end_asked, is_asked, put_in, report_of};
ghost use Rattle.run_stretch.specs.Statuses.{number_of};
ghost use Rattle.run_stretch.specs.declared.calls.report.Status.TheVariants.{BadNumber, BadRequest, Done, NoMemory, NoRoom};
ghost use Rattle.command_calls.specs.Answers.{AnswersCommand};
ghost use Rattle.command_calls.specs.Requests.{Request, request_read};
ghost use Rattle.gravitar_commands.specs.Outcome.{Comes};
ghost use Rattle.outside_io.specs.Content.{content_of};

use run_stretch::calls::{self, GravitarReport};
use std::alloc::Global;

/// The version of these calls: another number where one of them changes.
#[unsafe(no_mangle)]
pub extern "C" fn gravitar_version() -> u32
    ensures { result ≡ 3 }
{
    calls::version()
}

/// Puts the board at power-on, 4,356 bytes, into a buffer of so many or more.
#[unsafe(no_mangle)]
pub extern "C" fn gravitar_power_on(board: &mut [u8]) -> u32
    ensures short { length board.old < STATE_LEN → (result ≡ number_of NoRoom) × (board.new ≡ board.old) }
    ensures done { STATE_LEN ≤ length board.old → (result ≡ number_of Done) × (board.new ≡ put_in (state_bytes board_at_power_on) board.old) }
{
    calls::power_on(board)
}

/// Assembles the processor's source and then the generator's into one image
/// (`run_stretch::calls::assemble`).
#[unsafe(no_mangle)]
pub extern "C" fn gravitar_assemble(
    alloc: Global,
    processor: &[u8],
    generator: &[u8],
    image: &mut [u8],
    note: &mut [u8],
    report: &mut GravitarReport,
) -> u32
    ensures short { length image.old < IMAGE_LEN → Refuses NoRoom (report_of 0 IMAGE_LEN 0) (call_of image.old image.new note.old note.new report.new result) }
    ensures answer { IMAGE_LEN ≤ length image.old → AnswersSources processor.now generator.now (call_of image.old image.new note.old note.new report.new result) }
{
    calls::assemble(alloc, processor, generator, image, note, report)
}

/// Runs an image with a tape from a saved board, and returns the lines of its records
/// (`run_stretch::calls::advance`).
#[unsafe(no_mangle)]
pub extern "C" fn gravitar_advance(
    alloc: Global,
    image: &[u8],
    board: &mut [u8],
    tape: &[u8],
    clock: u64,
    boundary: u32,
    timers: u32,
    text: &mut [u8],
    report: &mut GravitarReport,
) -> u32
    ensures range { CLOCK_LIMIT < clock → Refuses BadNumber (report_of 0 0 clock) (call_of board.old board.new text.old text.new report.new result) }
    ensures answer { clock ≤ CLOCK_LIMIT → AnswersOver image.now board.old tape.now (IsAdvanced (length text.old) (is_asked timers) (end_asked boundary clock))
        (call_of board.old board.new text.old text.new report.new result) }
{
    calls::advance(
        alloc, image, board, tape, clock, boundary, timers, text, report,
    )
}

/// Runs an image with a tape from a saved board, and returns its records as structs
/// (`run_stretch::calls::records`).
#[unsafe(no_mangle)]
pub extern "C" fn gravitar_records(
    alloc: Global,
    image: &[u8],
    board: &mut [u8],
    tape: &[u8],
    clock: u64,
    boundary: u32,
    timers: u32,
    array: &mut [u8],
    report: &mut GravitarReport,
) -> u32
    ensures range { CLOCK_LIMIT < clock → Refuses BadNumber (report_of 0 0 clock) (call_of board.old board.new array.old array.new report.new result) }
    ensures answer { clock ≤ CLOCK_LIMIT → AnswersOver image.now board.old tape.now (IsRecorded (length array.old) (is_asked timers) (end_asked boundary clock))
        (call_of board.old board.new array.old array.new report.new result) }
{
    calls::records(
        alloc, image, board, tape, clock, boundary, timers, array, report,
    )
}

/// Runs an image with a tape from a saved board, and returns the samples of its sound
/// (`run_stretch::calls::pcm`).
#[unsafe(no_mangle)]
pub extern "C" fn gravitar_pcm(
    alloc: Global,
    image: &[u8],
    board: &mut [u8],
    tape: &[u8],
    clock: u64,
    per: u32,
    timers: u32,
    samples: &mut [u8],
    report: &mut GravitarReport,
) -> u32
    ensures range { CLOCK_LIMIT < clock → Refuses BadNumber (report_of 0 0 clock) (call_of board.old board.new samples.old samples.new report.new result) }
    ensures group { clock ≤ CLOCK_LIMIT → (per < 1) ⊎ (MAX_PER < per) → Refuses BadNumber (report_of 0 0 per) (call_of board.old board.new samples.old samples.new report.new result) }
    ensures answer { clock ≤ CLOCK_LIMIT → 1 ≤ per → per ≤ MAX_PER → AnswersOver image.now board.old tape.now (IsSampled (length samples.old) (is_asked timers) clock per)
        (call_of board.old board.new samples.old samples.new report.new result) }
{
    calls::pcm(
        alloc, image, board, tape, clock, per, timers, samples, report,
    )
}

/// Does the command line of a request over its files, as `gravitar` does it over real ones
/// (`command_calls::command`).
#[unsafe(no_mangle)]
pub extern "C" fn gravitar_command(
    alloc: Global,
    request: &[u8],
    answer: &mut [u8],
    report: &mut GravitarReport,
) -> u32
    ensures answers { (asked : Request) → request_read request.now ≡ Ok asked → result ≢ number_of NoMemory
        → Comes asked.words (Some (content_of asked.files)) (λ outcome. AnswersCommand outcome (call_of [] [] answer.old answer.new report.new result)) }
    ensures malformed { (left : ℕ) → request_read request.now ≡ Err left → result ≢ number_of NoMemory
        → Refuses BadRequest (report_of 0 0 (length request.now - left)) (call_of [] [] answer.old answer.new report.new result) }
    ensures no_memory { result ≡ number_of NoMemory → Refuses NoMemory (report_of 0 0 0) (call_of [] [] answer.old answer.new report.new result) }
{
    command_calls::command(alloc, request, answer, report)
}
