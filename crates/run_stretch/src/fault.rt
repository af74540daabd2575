use rom_image::ImageFault;
use save_state::StateFault;
use tape_ports::TapeFault;
use thiserror::Error;

/// Why a stretch isn't run: the first of its parts that is no such file, or lack of memory.
#[derive(Clone, Copy, Debug, PartialEq, Eq, Error)]
pub enum StretchFault {
    /// It is no image.
    Image(ImageFault),
    /// It is no saved board.
    Board(StateFault),
    /// It is no tape.
    Tape(TapeFault),
    /// There was no memory.
    NoMemory,
}
