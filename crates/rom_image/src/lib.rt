//! The image of the board's ROMs.
#![tactic(auto)]

pub mod fault;
pub mod image;
pub mod laws;

pub use fault::ImageFault;
pub use image::{IMAGE_LEN, Image, PROGRAM_ROM_LEN, PROGRAM_ROM_START, VECTOR_ROM_START};
pub use laws::image_numbers;
