ghost use Rattle.std.specs.Prelude.{◌≡◌, ℕ, IfOk, IfErr, IfSome, OnOk, Result, Err, Ok, Some, string_bytes};
ghost use Rattle.std.specs.Option.{option_map};
ghost use Rattle.board_base.specs.Board.{BoardValue};
ghost use Rattle.cpu_core.specs.Places.{IsProcessor};
ghost use Rattle.save_state.specs.declared.fault.StateFault.{StateFault};
ghost use Rattle.save_state.specs.Reading.{ReadsState};
ghost use Rattle.gravitar_commands.specs.Causes.{cause_text};
ghost use Rattle.gravitar_commands.specs.Outcome.{ForReading, board_file, both_files, cells_file, cells_into, cells_read, first_bytes, image_file, image_read, note_text, read_as, run_files, start_files, state_file, state_read, tape_file, tape_read, with_cells};
ghost use Rattle.gravitar_commands.specs.Stages.{Gives, StageFaults, StageAbsences, IsBadOrMemory};

use crate::cause::Cause;
use crate::failure::Failure;
use crate::parts::Parts;
use board_base::{BoardState, CELLS};
use command_line::{RunWords, Settings};
use outside_io::{Loaded, Shelf, ShelfFault};
use rom_image::{IMAGE_LEN, Image, ImageFault};
use save_state::STATE_LEN;
use std::alloc::Global;
use tape_ports::{TAPE_LIMIT, Tape, TapeFault};

/// A note on a file, or lack of memory for it.
fn note_on(alloc: Global, name: &str, cause: Cause) -> Result<String, Failure>
    ensures ok { IfOk result (λ note. string_bytes note ≡ note_text name.now (cause_text cause)) }
    ensures err { IfErr result (λ failure. failure ≡ Failure.NoMemory) }
{
    match format!(in alloc; "gravitar: {name}: {cause}\n") {
        Ok(note) => Ok(note),
        Err(_) => Err(Failure::NoMemory),
    }
}

/// The refusal of a bad file.
pub fn bad(alloc: Global, name: &str, cause: Cause) -> Failure
    ensures { IsBadOrMemory (note_text name.now (cause_text cause)) result }
{
    match note_on(alloc, name, cause) {
        Ok(note) => Failure::Bad(note),
        Err(failure) => failure,
    }
}

/// The first bytes of a file.
pub fn fetch<S: Shelf>(
    alloc: Global,
    name: &str,
    limit: usize,
    shelf: &mut S,
) -> Result<Vec<u8>, Failure>
    ensures content { IfSome (S.files shelf.old)
        (λ files. Gives (λ bytes. bytes.items) (first_bytes name.now limit (files name.now)) result) }
    ensures files { S.files shelf.new ≡ S.files shelf.old }
    ensures stores { S.stores shelf.new ≡ S.stores shelf.old }
    ensures faults { StageFaults (S.faults shelf.old) (S.faults shelf.new) result }
    ensures absences { StageAbsences (S.absences shelf.old) (S.absences shelf.new) result }
{
    let mut bytes = Vec::new(alloc);
    match shelf.load(name, limit, &mut bytes) {
        Ok(Loaded::Found) => Ok(bytes),
        Ok(Loaded::Absent) => Err(Failure::Absent(note_on(alloc, name, Cause::Absent)?)),
        Err(ShelfFault::Failed) => Err(Failure::Outside),
        Err(ShelfFault::OutOfMemory) => Err(Failure::NoMemory),
    }
}

/// An image of these bytes.
#[tactic(auto, unfolding(crate::specs::Outcome::image_read))]
fn read_image(alloc: Global, name: &str, bytes: &[u8]) -> Result<Image, Failure>
    ensures content { Gives (λ image. image) (read_as name.now (image_read bytes.now)) result }
    ensures faults { (n : ℕ) → StageFaults n n result }
{
    match Image::read(alloc, bytes) {
        Ok(image) => Ok(image),
        Err(ImageFault::Length(n)) => Err(bad(alloc, name, Cause::Image(ImageFault::Length(n)))),
        Err(ImageFault::OutOfMemory) => Err(Failure::NoMemory),
    }
}

/// A tape of these bytes.
#[tactic(auto, unfolding(crate::specs::Outcome::tape_read))]
fn read_tape(alloc: Global, name: &str, bytes: &[u8]) -> Result<Tape, Failure>
    ensures content { Gives (λ tape. tape) (read_as name.now (tape_read bytes.now)) result }
    ensures faults { (n : ℕ) → StageFaults n n result }
{
    match Tape::read(alloc, bytes) {
        Ok(tape) => Ok(tape),
        Err(TapeFault::TooLong) => Err(bad(alloc, name, Cause::Tape(TapeFault::TooLong))),
        Err(TapeFault::BadLine { line, cause }) => Err(bad(
            alloc,
            name,
            Cause::Tape(TapeFault::BadLine { line, cause }),
        )),
        Err(TapeFault::OutOfMemory) => Err(Failure::NoMemory),
    }
}

/// The board of these bytes.
fn read_state(alloc: Global, name: &str, bytes: &[u8]) -> Result<BoardState, Failure>
    ensures content { (reading : Result BoardValue StateFault) → ReadsState bytes.now reading
        → Gives (λ board. board) (read_as name.now (state_read reading)) result }
    ensures place { IfOk result (λ board. IsProcessor board.cpu) }
    ensures faults { (n : ℕ) → StageFaults n n result }
    ensures absences { (n : ℕ) → StageAbsences n n result }
{
    match save_state::read(bytes) {
        Ok(board) => Ok(board),
        Err(fault) => Err(bad(alloc, name, Cause::State(fault))),
    }
}

/// The image file.
#[tactic(auto, unfolding(crate::specs::Outcome::image_file))]
fn load_image<S: Shelf>(alloc: Global, name: &str, shelf: &mut S) -> Result<Image, Failure>
    ensures content { IfSome (S.files shelf.old) (λ files. Gives (λ image. image) (image_file files name.now) result) }
    ensures files { S.files shelf.new ≡ S.files shelf.old }
    ensures stores { S.stores shelf.new ≡ S.stores shelf.old }
    ensures faults { StageFaults (S.faults shelf.old) (S.faults shelf.new) result }
    ensures absences { StageAbsences (S.absences shelf.old) (S.absences shelf.new) result }
{
    let bytes = fetch(alloc, name, IMAGE_LEN, shelf)?;
    read_image(alloc, name, &bytes)
}

/// The tape.
#[tactic(auto, unfolding(crate::specs::Outcome::tape_file))]
fn load_tape<S: Shelf>(alloc: Global, name: &str, shelf: &mut S) -> Result<Tape, Failure>
    ensures content { IfSome (S.files shelf.old) (λ files. Gives (λ tape. tape) (tape_file files name.now) result) }
    ensures files { S.files shelf.new ≡ S.files shelf.old }
    ensures stores { S.stores shelf.new ≡ S.stores shelf.old }
    ensures faults { StageFaults (S.faults shelf.old) (S.faults shelf.new) result }
    ensures absences { StageAbsences (S.absences shelf.old) (S.absences shelf.new) result }
{
    let bytes = fetch(alloc, name, TAPE_LIMIT, shelf)?;
    read_tape(alloc, name, &bytes)
}

/// The board of a state file.
#[tactic(auto, unfolding(crate::specs::Outcome::state_file))]
pub fn load_state<S: Shelf>(alloc: Global, name: &str, shelf: &mut S) -> Result<BoardState, Failure>
    ensures content { IfSome (S.files shelf.old) (λ files. ForReading (Some name.now) files
        (λ reading. Gives (λ board. board) (state_file files name.now reading) result)) }
    ensures place { IfOk result (λ board. IsProcessor board.cpu) }
    ensures files { S.files shelf.new ≡ S.files shelf.old }
    ensures stores { S.stores shelf.new ≡ S.stores shelf.old }
    ensures faults { StageFaults (S.faults shelf.old) (S.faults shelf.new) result }
    ensures absences { StageAbsences (S.absences shelf.old) (S.absences shelf.new) result }
{
    let bytes = fetch(alloc, name, STATE_LEN, shelf)?;
    read_state(alloc, name, &bytes)
}

/// The board that a run begins with: that of a state file, or the one at power-on.
fn load_board<S: Shelf>(
    alloc: Global,
    name: Option<&str>,
    shelf: &mut S,
) -> Result<BoardState, Failure>
    ensures content { IfSome (S.files shelf.old) (λ files. ForReading (option_map (λ n. n.now) name.entry) files
        (λ reading. Gives (λ board. board) (board_file files (option_map (λ n. n.now) name.entry) reading) result)) }
    ensures place { IfOk result (λ board. IsProcessor board.cpu) }
    ensures files { S.files shelf.new ≡ S.files shelf.old }
    ensures stores { S.stores shelf.new ≡ S.stores shelf.old }
    ensures faults { StageFaults (S.faults shelf.old) (S.faults shelf.new) result }
    ensures absences { StageAbsences (S.absences shelf.old) (S.absences shelf.new) result }
{
    match name {
        Some(name) => load_state(alloc, name, shelf),
        None => Ok(BoardState::power_on()),
    }
}

/// The cells of these bytes, put into a board.
#[tactic(auto, unfolding(crate::specs::Outcome::cells_read))]
fn read_cells(
    alloc: Global,
    name: &str,
    bytes: &[u8],
    board: &mut BoardState,
) -> Result<(), Failure>
    ensures content { Gives (λ _. board.new.earom.cells) (read_as name.now (cells_read bytes.now)) result }
    ensures board { OnOk result (board.new ≡ with_cells board.old bytes.now) }
    ensures faults { (n : ℕ) → StageFaults n n result }
{
    match <[u8; CELLS]>::try_from(bytes) {
        Ok(cells) => {
            board.earom.cells = cells;
            Ok(())
        }
        Err(_) => Err(bad(alloc, name, Cause::Cells(bytes.len()))),
    }
}

/// The cells of an EAROM file, put into a board.
#[tactic(auto, unfolding(crate::specs::Outcome::cells_file))]
fn load_cells<S: Shelf>(
    alloc: Global,
    name: Option<&str>,
    board: &mut BoardState,
    shelf: &mut S,
) -> Result<(), Failure>
    ensures content { IfSome (S.files shelf.old) (λ files.
        Gives (λ _. board.new) (cells_into files (option_map (λ n. n.now) name.entry) board.old) result) }
    ensures place { OnOk result (board.new.cpu ≡ board.old.cpu) }
    ensures files { S.files shelf.new ≡ S.files shelf.old }
    ensures stores { S.stores shelf.new ≡ S.stores shelf.old }
    ensures faults { StageFaults (S.faults shelf.old) (S.faults shelf.new) result }
    ensures absences { StageAbsences (S.absences shelf.old) (S.absences shelf.new) result }
{
    let Some(name) = name else {
        return Ok(());
    };
    let bytes = fetch(alloc, name, CELLS, shelf)?;
    read_cells(alloc, name, &bytes, board)
}

/// The board that a run begins with, its state and then its cells.
#[tactic(auto, unfolding(crate::specs::Outcome::start_files))]
fn load_start<S: Shelf>(
    alloc: Global,
    settings: &Settings<'_>,
    shelf: &mut S,
) -> Result<BoardState, Failure>
    ensures content { IfSome (S.files shelf.old) (λ files. ForReading settings.now.state files
        (λ reading. Gives (λ board. board) (start_files files settings.now reading) result)) }
    ensures place { IfOk result (λ board. IsProcessor board.cpu) }
    ensures files { S.files shelf.new ≡ S.files shelf.old }
    ensures stores { S.stores shelf.new ≡ S.stores shelf.old }
    ensures faults { StageFaults (S.faults shelf.old) (S.faults shelf.new) result }
    ensures absences { StageAbsences (S.absences shelf.old) (S.absences shelf.new) result }
{
    let mut board = load_board(alloc, settings.state, shelf)?;
    load_cells(alloc, settings.earom, &mut board, shelf)?;
    Ok(board)
}

/// The image and the tape.
#[tactic(auto, unfolding(crate::specs::Outcome::both_files))]
fn load_both<S: Shelf>(
    alloc: Global,
    words: &RunWords<'_>,
    shelf: &mut S,
) -> Result<(Image, Tape), Failure>
    ensures content { IfSome (S.files shelf.old) (λ files. Gives (λ both. (both.0, both.1)) (both_files files words.now) result) }
    ensures files { S.files shelf.new ≡ S.files shelf.old }
    ensures stores { S.stores shelf.new ≡ S.stores shelf.old }
    ensures faults { StageFaults (S.faults shelf.old) (S.faults shelf.new) result }
    ensures absences { StageAbsences (S.absences shelf.old) (S.absences shelf.new) result }
{
    let image = load_image(alloc, words.image, shelf)?;
    let tape = load_tape(alloc, words.tape, shelf)?;
    Ok((image, tape))
}

/// The files of a run, each read wholly before the next: image, tape, state, EAROM.
#[tactic(auto, unfolding(crate::specs::Outcome::run_files))]
pub fn load_run<S: Shelf>(
    alloc: Global,
    words: &RunWords<'_>,
    shelf: &mut S,
) -> Result<Parts, Failure>
    ensures content { IfSome (S.files shelf.old) (λ files. ForReading words.now.settings.state files
        (λ reading. Gives (λ parts. parts) (run_files files words.now reading) result)) }
    ensures place { IfOk result (λ parts. IsProcessor parts.board.cpu) }
    ensures files { S.files shelf.new ≡ S.files shelf.old }
    ensures stores { S.stores shelf.new ≡ S.stores shelf.old }
    ensures faults { StageFaults (S.faults shelf.old) (S.faults shelf.new) result }
    ensures absences { StageAbsences (S.absences shelf.old) (S.absences shelf.new) result }
{
    let (image, tape) = load_both(alloc, words, shelf)?;
    let board = load_start(alloc, &words.settings, shelf)?;
    Ok(Parts { image, tape, board })
}
