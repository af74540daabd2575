ghost use Rattle.std.specs.Prelude.{Some};
ghost use Rattle.rom_image.specs.Texts.{image_fault_text};

use std::fmt;
use thiserror::Error;

/// Why bytes are no image.
#[derive(Clone, Copy, Debug, PartialEq, Eq, Error)]
pub enum ImageFault {
    /// The number of bytes, where it isn't `IMAGE_LEN`.
    Length(usize),
    /// No memory for the copy.
    OutOfMemory,
}

impl fmt::Display for ImageFault {
    ghost output = { λ fault. Some (image_fault_text fault) };

    fn fmt<W: fmt::Write>(&self, f: &mut fmt::Formatter<W>) -> fmt::Result {
        match self {
            ImageFault::Length(n) => write!(f, "length {n}"),
            ImageFault::OutOfMemory => f.write_str("no memory"),
        }
    }
}
