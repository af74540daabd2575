/// What a tape sets: one of the board's three input ports, or the target of a pot.
///
/// A pot's number is 0 to 7 (POKEY C012294 data sheet, POT0 to POT7).
#[derive(Clone, Copy, Debug, PartialEq, Eq)]
pub enum Port {
    /// The input port at 7800, of which a tape sets bits 0 to 5.
    In0,
    /// The input port at 8000.
    In3,
    /// The input port at 8800.
    In4,
    /// A pot of POKEY 1, by its number.
    Pot1(u8),
    /// A pot of POKEY 2, by its number.
    Pot2(u8),
}

/// A byte for a port, at the start of a clock.
///
/// `value` is the byte as the tape has it; `In0` uses bits 0 to 5 of it.
#[derive(Clone, Copy, Debug, PartialEq, Eq)]
pub struct TapeEntry {
    pub clock: u64,
    pub port: Port,
    pub value: u8,
}
