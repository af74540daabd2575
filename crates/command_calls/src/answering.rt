//! A command line as a call of plain bytes.
ghost use Rattle.std.specs.Prelude.{◌≡◌, ◌≢◌, ◌+◌, ◌-◌, ◌≤◌, ◌++◌, ℕ, List, [], Ok, Err, Some, false, length};
ghost use Rattle.outside_io.specs.Content.{content_of};
ghost use Rattle.gravitar_commands.specs.Outcome.{Comes};
ghost use Rattle.run_stretch.specs.Answers.{Refuses, call_of, put_in, report_of};
ghost use Rattle.run_stretch.specs.Statuses.{number_of};
ghost use Rattle.run_stretch.specs.declared.calls.report.Status.TheVariants.{BadRequest, NoMemory};
ghost use Rattle.command_calls.specs.Answers.{AnswersCommand, AnswersWith, IsFilled, answer_of, laid_out};
ghost use Rattle.command_calls.specs.Bytes.{number_bytes};
ghost use Rattle.command_calls.specs.Counted.{counted};
ghost use Rattle.command_calls.specs.Requests.{Request, request_read};

use crate::counted_text::CountedText;
use crate::performing::perform;
use crate::reading::{RequestFault, read_request};
use crate::request_shelf::RequestShelf;
use gravitar_commands::Words;
use run_stretch::calls::{GravitarReport, Status, report_number};
use std::alloc::Global;

/// How many bytes an answer begins with: its status, and the lengths of its text, its note and its
/// stores.
pub const HEAD_LEN: u64 = 32;

/// What a command line has come to.
#[derive(Drop)]
struct Performance {
    status: u8,
    out: CountedText,
    notes: CountedText,
    shelf: RequestShelf,
}

/// Puts bytes at a place of a buffer, and returns the place after them.
fn put(bytes: &[u8], at: usize, buffer: &mut [u8]) -> usize
    requires room { at + length bytes.now ≤ length buffer.old }
    ensures end { result ≡ at + length bytes.now }
    ensures filled { (before whole : List ℕ) → IsFilled before at whole buffer.old → IsFilled (before ++ bytes.now) result whole buffer.new }
    ensures len { length buffer.new ≡ length buffer.old }
{
    let end = at + bytes.len();
    buffer[at..end].copy_from_slice(bytes);
    end
}

/// Puts a number at a place of a buffer, and returns the place after it.
fn put_number(number: u64, at: usize, buffer: &mut [u8]) -> usize
    requires room { at + 8 ≤ length buffer.old }
    ensures end { result ≡ at + 8 }
    ensures filled { (before whole : List ℕ) → IsFilled before at whole buffer.old → IsFilled (before ++ number_bytes number) result whole buffer.new }
    ensures len { length buffer.new ≡ length buffer.old }
{
    put(&number.to_le_bytes(), at, buffer)
}

/// Puts an answer into a buffer that has room for it.
fn fill(status: u8, text: &[u8], note: &[u8], stores: &[u8], buffer: &mut [u8])
    requires { 32 + length text.now + length note.now + length stores.now ≤ length buffer.old }
    ensures { buffer.new ≡ put_in (laid_out status text.now note.now stores.now) buffer.old }
{
    let at_text_len = put_number(u64::from(status), 0, buffer);
    let at_note_len = put_number(text.len() as u64, at_text_len, buffer);
    let at_stores_len = put_number(note.len() as u64, at_note_len, buffer);
    let at_text = put_number(stores.len() as u64, at_stores_len, buffer);
    let at_note = put(text, at_text, buffer);
    let at_stores = put(note, at_note, buffer);
    let _end = put(stores, at_stores, buffer);
}

impl Performance {
    /// How many bytes its answer has.
    fn answer_len(&self) -> u64
        ensures { result ≡ counted (length (answer_of self.now.status self.now.out self.now.notes self.now.shelf.stores)) }
    {
        HEAD_LEN
            .saturating_add(self.out.count())
            .saturating_add(self.notes.count())
            .saturating_add(self.shelf.stores().count())
    }

    /// Answers with it.
    fn answer(&self, buffer: &mut [u8], report: &mut GravitarReport) -> u32
        ensures answers { result ≢ number_of NoMemory → AnswersWith (answer_of self.now.status self.now.out self.now.notes self.now.shelf.stores)
            (call_of [] [] buffer.old buffer.new report.new result) }
        ensures no_memory { result ≡ number_of NoMemory → Refuses NoMemory (report_of 0 0 0) (call_of [] [] buffer.old buffer.new report.new result) }
    {
        let used = self.answer_len();
        if (buffer.len() as u64) < used {
            return report_number(Status::NoRoom, used, 0, report);
        }
        let (Some(text), Some(note), Some(stores)) = (
            self.out.whole(),
            self.notes.whole(),
            self.shelf.stores().whole(),
        ) else {
            return report_number(Status::NoMemory, 0, 0, report);
        };
        fill(self.status, text, note, stores, buffer);
        report_number(Status::Done, used, 0, report)
    }
}

/// Does a command line over the files of a shelf, and answers with what it has come to.
fn answer_words(
    alloc: Global,
    words: &Words,
    mut shelf: RequestShelf,
    buffer: &mut [u8],
    report: &mut GravitarReport,
) -> u32
    requires unchanged { shelf.changed ≡ false }
    requires no_store { shelf.stores ≡ [] }
    ensures answers { result ≢ number_of NoMemory → Comes words.now (Some (content_of shelf.files)) (λ outcome.
        AnswersCommand outcome (call_of [] [] buffer.old buffer.new report.new result)) }
    ensures no_memory { result ≡ number_of NoMemory → Refuses NoMemory (report_of 0 0 0) (call_of [] [] buffer.old buffer.new report.new result) }
{
    let Ok(mut out) = CountedText::with_room(alloc, buffer.len()) else {
        return report_number(Status::NoMemory, 0, 0, report);
    };
    let mut notes = CountedText::new(alloc, buffer.len());
    let status = perform(alloc, words, &mut shelf, &mut out, &mut notes);
    if status == 7 {
        return report_number(Status::NoMemory, 0, 0, report);
    }
    let performance = Performance {
        status,
        out,
        notes,
        shelf,
    };
    performance.answer(buffer, report)
}

/// Does the command line of a request over its files, and puts its status, its text, its note and
/// its stores into a buffer (docs/FORMATS.md has the bytes of both). Where the buffer is too short,
/// `used` says what is wanted. A request that isn't well formed is refused, and `place` says at
/// which byte.
pub fn command(alloc: Global, request: &[u8], answer: &mut [u8], report: &mut GravitarReport) -> u32
    ensures answers { (asked : Request) → request_read request.now ≡ Ok asked → result ≢ number_of NoMemory
        → Comes asked.words (Some (content_of asked.files)) (λ outcome. AnswersCommand outcome (call_of [] [] answer.old answer.new report.new result)) }
    ensures malformed { (left : ℕ) → request_read request.now ≡ Err left → result ≢ number_of NoMemory
        → Refuses BadRequest (report_of 0 0 (length request.now - left)) (call_of [] [] answer.old answer.new report.new result) }
    ensures no_memory { result ≡ number_of NoMemory → Refuses NoMemory (report_of 0 0 0) (call_of [] [] answer.old answer.new report.new result) }
{
    let mut words = Words::new(alloc);
    let Ok(mut shelf) = RequestShelf::new(alloc, answer.len()) else {
        return report_number(Status::NoMemory, 0, 0, report);
    };
    match read_request(request, &mut words, &mut shelf) {
        Ok(()) => answer_words(alloc, &words, shelf, answer, report),
        Err(RequestFault::Malformed(left)) => {
            let place = request.len().saturating_sub(left) as u64;
            report_number(Status::BadRequest, 0, place, report)
        }
        Err(RequestFault::NoMemory) => report_number(Status::NoMemory, 0, 0, report),
    }
}
