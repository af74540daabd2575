/// What stands at a processor address. The map is this project's own choice.
///
/// `Ram`, `VectorRam`, `VectorRom` and `ProgramRom` have the offset in the region, `Sound1` and
/// `Sound2` the POKEY's register 0 to 15, `EaromLatch` the cell 0 to 63. `In4` is read as the port
/// and written as the output latch.
#[derive(Clone, Copy, PartialEq, Eq)]
pub enum Region {
    /// The RAM.
    Ram(u16),
    /// The RAM of the vector memory.
    VectorRam(u16),
    /// Its ROM.
    VectorRom(u16),
    /// POKEY 1.
    Sound1(u8),
    /// POKEY 2.
    Sound2(u8),
    /// The EAROM's output latch.
    EaromOut,
    /// Input port 0, the halted bit and the 3 kHz bit.
    In0,
    /// Input port 3.
    In3,
    /// Input port 4, and the output latch.
    In4,
    /// Starts the generator.
    Go,
    /// Halts the generator.
    VgReset,
    /// Lets go of the interrupt.
    Acknowledge,
    /// The EAROM's control bits.
    EaromControl,
    /// The EAROM's address and data latches.
    EaromLatch(u8),
    /// Clears the watchdog.
    Watchdog,
    /// The program ROM.
    ProgramRom(u16),
    /// No part of the board.
    Nothing,
}

/// What a read of an address gives.
#[derive(Clone, Copy, PartialEq, Eq)]
pub enum Reads {
    /// A byte of the RAM.
    Ram,
    /// A byte of the vector RAM.
    VectorRam,
    /// A byte of the vector ROM.
    VectorRom,
    /// A byte of the program ROM.
    ProgramRom,
    /// A register of POKEY 1.
    Sound1,
    /// A register of POKEY 2.
    Sound2,
    /// The EAROM's output latch.
    EaromOut,
    /// Input port 0, the halted bit and the 3 kHz bit.
    In0,
    /// Input port 3.
    In3,
    /// Input port 4.
    In4,
    /// FF, the open bus.
    Open,
}

/// What a write to an address does.
#[derive(Clone, Copy, PartialEq, Eq)]
pub enum Writes {
    /// Sets a byte of the RAM.
    Ram,
    /// Sets a byte of the vector RAM.
    VectorRam,
    /// Writes a register of POKEY 1.
    Sound1,
    /// Writes a register of POKEY 2.
    Sound2,
    /// Sets the output latch.
    OutputLatch,
    /// Starts the generator.
    Go,
    /// Halts the generator.
    VgReset,
    /// Clears the interrupt latch.
    Acknowledge,
    /// Sets the EAROM's control bits.
    EaromControl,
    /// Sets the EAROM's address and data latches.
    EaromLatch,
    /// Clears the watchdog.
    WatchdogClear,
    /// Nothing.
    Ignored,
}

/// What a read and a write of an address do.
#[derive(Clone, Copy, PartialEq, Eq)]
pub struct Row {
    /// The offset in the range, and for a POKEY the register 0 to 15.
    pub offset: u16,
    /// What a read gives.
    pub reads: Reads,
    /// What a write does.
    pub writes: Writes,
}
