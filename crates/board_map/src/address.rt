//! The address map: a row for each range of addresses.
ghost use Rattle.std.specs.Prelude.{◌≡◌};
ghost use Rattle.board_map.specs.Map.{region_at, region_of, row_of, IsInside, IsWithin};

use crate::map::{Reads, Region, Row, Writes};

/// The first address of the vector RAM, with which the generator's memory begins.
pub const VECTOR_RAM_START: u16 = 0x2000;

/// The address of input port 0.
pub const IN0: u16 = 0x7800;

/// The first address that clears the watchdog.
pub const WATCHDOG_START: u16 = 0x8980;

/// A row.
#[inline(always)]
fn entry(offset: u16, reads: Reads, writes: Writes) -> Row
    ensures { result ≡ record { offset = offset; reads = reads; writes = writes } }
{
    Row {
        offset,
        reads,
        writes,
    }
}

/// What a read and a write of a processor address do.
#[inline(always)]
#[tactic(auto, unfolding(crate::specs::Map::row_of))]
pub fn row(addr: u16) -> Row
    ensures map { result ≡ row_of addr }
    ensures inside { IsWithin result }
{
    match addr {
        0x0000..=0x07FF => entry(addr, Reads::Ram, Writes::Ram),
        VECTOR_RAM_START..=0x27FF => entry(
            addr - VECTOR_RAM_START,
            Reads::VectorRam,
            Writes::VectorRam,
        ),
        0x2800..=0x5FFF => entry(addr - 0x2800, Reads::VectorRom, Writes::Ignored),
        0x6000..=0x67FF => entry(addr % 16, Reads::Sound1, Writes::Sound1),
        0x6800..=0x6FFF => entry(addr % 16, Reads::Sound2, Writes::Sound2),
        0x7000 => entry(0, Reads::EaromOut, Writes::Ignored),
        IN0 => entry(0, Reads::In0, Writes::Ignored),
        0x8000 => entry(0, Reads::In3, Writes::Ignored),
        0x8800 => entry(0, Reads::In4, Writes::OutputLatch),
        0x8840 => entry(0, Reads::Open, Writes::Go),
        0x8880 => entry(0, Reads::Open, Writes::VgReset),
        0x88C0 => entry(0, Reads::Open, Writes::Acknowledge),
        0x8900 => entry(0, Reads::Open, Writes::EaromControl),
        0x8940..=0x897F => entry(addr - 0x8940, Reads::Open, Writes::EaromLatch),
        WATCHDOG_START..=0x89ED => entry(addr - WATCHDOG_START, Reads::Open, Writes::WatchdogClear),
        0x9000..=0xFFFF => entry(addr - 0x9000, Reads::ProgramRom, Writes::Ignored),
        _ => entry(0, Reads::Open, Writes::Ignored),
    }
}

/// The region of a row of which a read gives nothing, by what a write does.
fn written_region(row: Row) -> Region
    requires open { row.reads ≡ Reads.Open }
    requires inside { IsWithin row }
    ensures map { result ≡ region_at row }
    ensures inside { IsInside result }
{
    match row.writes {
        Writes::Go => Region::Go,
        Writes::VgReset => Region::VgReset,
        Writes::Acknowledge => Region::Acknowledge,
        Writes::EaromControl => Region::EaromControl,
        Writes::EaromLatch => Region::EaromLatch(row.offset as u8),
        Writes::WatchdogClear => Region::Watchdog,
        _ => Region::Nothing,
    }
}

/// The region of a processor address.
pub fn region(addr: u16) -> Region
    ensures map { result ≡ region_of addr }
    ensures inside { IsInside result }
{
    let row = row(addr);
    match row.reads {
        Reads::Ram => Region::Ram(row.offset),
        Reads::VectorRam => Region::VectorRam(row.offset),
        Reads::VectorRom => Region::VectorRom(row.offset),
        Reads::ProgramRom => Region::ProgramRom(row.offset),
        Reads::Sound1 => Region::Sound1(row.offset as u8),
        Reads::Sound2 => Region::Sound2(row.offset as u8),
        Reads::EaromOut => Region::EaromOut,
        Reads::In0 => Region::In0,
        Reads::In3 => Region::In3,
        Reads::In4 => Region::In4,
        Reads::Open => written_region(row),
    }
}
