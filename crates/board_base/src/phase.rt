//! The six phases of the generator, by the numbers that its state has for them (this project's own
//! choice).

/// The low byte of a word is read.
pub const LOW_BYTE: u8 = 0;

/// Its high byte is read.
pub const HIGH_BYTE: u8 = 1;

/// The low byte of a long vector's second word is read.
pub const SECOND_LOW: u8 = 2;

/// Its high byte is read.
pub const SECOND_HIGH: u8 = 3;

/// The word is done.
pub const EXECUTE: u8 = 4;

/// A vector is drawn.
pub const DRAW: u8 = 5;
