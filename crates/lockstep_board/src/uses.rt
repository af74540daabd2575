//! The devices that reads and writes use. This project's own choice.
ghost use Rattle.std.specs.Prelude.{◌≡◌, not};
ghost use Rattle.lockstep_board.specs.Uses.{devices_read, devices_written, is_some_device};

use board_map::{Reads, Writes};

/// Some of the devices.
#[derive(Clone, Copy, Debug, PartialEq, Eq)]
pub struct DeviceSet {
    /// The generator.
    pub vector: bool,
    /// POKEY 1.
    pub sound1: bool,
    /// POKEY 2.
    pub sound2: bool,
    /// The EAROM.
    pub cells: bool,
    /// The divider.
    pub divider: bool,
}

impl DeviceSet {
    /// Whether none is among them.
    pub fn is_empty(self) -> bool
        ensures { result ≡ not (is_some_device self) }
    {
        self == NO_DEVICE
    }
}

/// None of them.
pub const NO_DEVICE: DeviceSet = DeviceSet {
    vector: false,
    sound1: false,
    sound2: false,
    cells: false,
    divider: false,
};

/// Each of them.
pub const ALL_DEVICES: DeviceSet = DeviceSet {
    vector: true,
    sound1: true,
    sound2: true,
    cells: true,
    divider: true,
};

/// The generator alone.
pub const VECTOR: DeviceSet = DeviceSet {
    vector: true,
    ..NO_DEVICE
};

/// POKEY 1 alone.
pub const SOUND1: DeviceSet = DeviceSet {
    sound1: true,
    ..NO_DEVICE
};

/// POKEY 2 alone.
pub const SOUND2: DeviceSet = DeviceSet {
    sound2: true,
    ..NO_DEVICE
};

/// The EAROM alone.
pub const CELLS: DeviceSet = DeviceSet {
    cells: true,
    ..NO_DEVICE
};

/// The divider alone.
pub const DIVIDER: DeviceSet = DeviceSet {
    divider: true,
    ..NO_DEVICE
};

/// The generator and the divider.
pub const VECTOR_AND_DIVIDER: DeviceSet = DeviceSet {
    vector: true,
    divider: true,
    ..NO_DEVICE
};

/// The devices that give the byte of a read.
#[inline(always)]
pub fn devices_read(reads: Reads) -> DeviceSet
    ensures { result ≡ devices_read reads }
{
    match reads {
        Reads::Sound1 => SOUND1,
        Reads::Sound2 => SOUND2,
        Reads::EaromOut => CELLS,
        Reads::In0 => VECTOR_AND_DIVIDER,
        _ => NO_DEVICE,
    }
}

/// The devices that see a write. The generator sees the vector RAM.
#[inline(always)]
pub fn devices_written(writes: Writes) -> DeviceSet
    ensures { result ≡ devices_written writes }
{
    match writes {
        Writes::VectorRam => VECTOR,
        Writes::Sound1 => SOUND1,
        Writes::Sound2 => SOUND2,
        Writes::Go => VECTOR,
        Writes::VgReset => VECTOR,
        Writes::Acknowledge => DIVIDER,
        Writes::EaromControl => CELLS,
        Writes::EaromLatch => CELLS,
        Writes::WatchdogClear => DIVIDER,
        _ => NO_DEVICE,
    }
}
