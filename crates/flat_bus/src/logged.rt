/// Whether a byte was read or written.
#[derive(Clone, Copy, Debug, PartialEq, Eq)]
pub enum Direction {
    /// It was read.
    Read,
    /// It was written.
    Write,
}

/// One access: its clock, counted from 0 at the first access, its address, and the byte read or
/// written.
#[derive(Clone, Copy, Debug, PartialEq, Eq)]
pub struct Logged {
    pub clock: u64,
    pub direction: Direction,
    pub addr: u16,
    pub byte: u8,
}
