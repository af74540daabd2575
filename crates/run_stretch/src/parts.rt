ghost use Rattle.std.specs.Prelude.{IfOk};
ghost use Rattle.cpu_core.specs.Places.{IsProcessor};
ghost use Rattle.run_stretch.specs.Reading.{ReadsParts, ReadsImagePart, ReadsTapePart};

use crate::fault::StretchFault;
use board_base::BoardState;
use rom_image::{Image, ImageFault};
use std::alloc::Global;
use tape_ports::{Tape, TapeFault};

/// What a stretch begins with, as bytes.
#[derive(Clone, Copy, Debug)]
pub struct Start<'a> {
    /// An image, 43,008 bytes.
    pub image: &'a [u8],
    /// A saved board, 4,356 bytes.
    pub board: &'a [u8],
    /// A tape, as text.
    pub tape: &'a [u8],
    /// Whether the timer requests of the POKEYs reach the interrupt line. A saved board doesn't say
    /// it.
    pub timers: bool,
}

/// What a stretch begins with, as it is read.
#[derive(Drop)]
pub struct Parts {
    pub image: Image,
    pub board: BoardState,
    pub tape: Tape,
}

/// The image of these bytes.
fn read_image(alloc: Global, bytes: &[u8]) -> Result<Image, StretchFault>
    ensures { ReadsImagePart bytes.now result }
{
    match Image::read(alloc, bytes) {
        Ok(image) => Ok(image),
        Err(ImageFault::Length(n)) => Err(StretchFault::Image(ImageFault::Length(n))),
        Err(ImageFault::OutOfMemory) => Err(StretchFault::NoMemory),
    }
}

/// The tape of this text.
fn read_tape(alloc: Global, bytes: &[u8]) -> Result<Tape, StretchFault>
    ensures { ReadsTapePart bytes.now result }
{
    match Tape::read(alloc, bytes) {
        Ok(tape) => Ok(tape),
        Err(TapeFault::TooLong) => Err(StretchFault::Tape(TapeFault::TooLong)),
        Err(TapeFault::BadLine { line, cause }) => {
            Err(StretchFault::Tape(TapeFault::BadLine { line, cause }))
        }
        Err(TapeFault::OutOfMemory) => Err(StretchFault::NoMemory),
    }
}

/// Reads what a stretch begins with, each wholly before the next: image, board, tape.
pub fn read_parts(alloc: Global, start: Start<'_>) -> Result<Parts, StretchFault>
    ensures reads { ReadsParts start.entry.image.now start.entry.board.now start.entry.tape.now result }
    ensures place { IfOk result (λ parts. IsProcessor parts.board.cpu) }
{
    let image = read_image(alloc, start.image)?;
    let board = match save_state::read(start.board) {
        Ok(board) => board,
        Err(fault) => return Err(StretchFault::Board(fault)),
    };
    let tape = read_tape(alloc, start.tape)?;
    Ok(Parts { image, board, tape })
}
