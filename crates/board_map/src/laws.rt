//! The edges of the regions. It is the contract of a function that does nothing.
ghost use Rattle.std.specs.Prelude.{◌≡◌};
ghost use Rattle.board_map.specs.Map.{region_of};

use crate::address::{IN0, VECTOR_RAM_START, WATCHDOG_START};
use crate::map::Region;

/// The first and the last address of each region, and those of the gaps between them.
#[tactic(auto, unfolding(crate::specs::Map::row_of))]
pub fn region_edges()
    ensures starts { (VECTOR_RAM_START ≡ 0x2000) × (IN0 ≡ 0x7800) × (WATCHDOG_START ≡ 0x8980) }
    ensures ram { (region_of 0x0000 ≡ Region.Ram 0) × (region_of 0x07FF ≡ Region.Ram 2047) }
    ensures vector_ram { (region_of 0x2000 ≡ Region.VectorRam 0) × (region_of 0x27FF ≡ Region.VectorRam 2047) }
    ensures vector_rom { (region_of 0x2800 ≡ Region.VectorRom 0) × (region_of 0x5FFF ≡ Region.VectorRom 14335) }
    ensures sound1 { (region_of 0x6000 ≡ Region.Sound1 0) × (region_of 0x67FF ≡ Region.Sound1 15) }
    ensures sound2 { (region_of 0x6800 ≡ Region.Sound2 0) × (region_of 0x6FFF ≡ Region.Sound2 15) }
    ensures earom_out { region_of 0x7000 ≡ Region.EaromOut }
    ensures in0 { region_of 0x7800 ≡ Region.In0 }
    ensures in3 { region_of 0x8000 ≡ Region.In3 }
    ensures in4 { region_of 0x8800 ≡ Region.In4 }
    ensures go { region_of 0x8840 ≡ Region.Go }
    ensures vg_reset { region_of 0x8880 ≡ Region.VgReset }
    ensures acknowledge { region_of 0x88C0 ≡ Region.Acknowledge }
    ensures earom_control { region_of 0x8900 ≡ Region.EaromControl }
    ensures earom_latch { (region_of 0x8940 ≡ Region.EaromLatch 0) × (region_of 0x897F ≡ Region.EaromLatch 63) }
    ensures watchdog { (region_of 0x8980 ≡ Region.Watchdog) × (region_of 0x89ED ≡ Region.Watchdog) }
    ensures program_rom { (region_of 0x9000 ≡ Region.ProgramRom 0) × (region_of 0xFFFF ≡ Region.ProgramRom 28671) }
    ensures nothing { (region_of 0x0800 ≡ Region.Nothing) × (region_of 0x1FFF ≡ Region.Nothing) × (region_of 0x7001 ≡ Region.Nothing) × (region_of 0x77FF ≡ Region.Nothing) × (region_of 0x7801 ≡ Region.Nothing) × (region_of 0x7FFF ≡ Region.Nothing) × (region_of 0x8001 ≡ Region.Nothing) × (region_of 0x87FF ≡ Region.Nothing) × (region_of 0x8801 ≡ Region.Nothing) × (region_of 0x883F ≡ Region.Nothing) × (region_of 0x8841 ≡ Region.Nothing) × (region_of 0x887F ≡ Region.Nothing) × (region_of 0x8881 ≡ Region.Nothing) × (region_of 0x88BF ≡ Region.Nothing) × (region_of 0x88C1 ≡ Region.Nothing) × (region_of 0x88FF ≡ Region.Nothing) × (region_of 0x8901 ≡ Region.Nothing) × (region_of 0x893F ≡ Region.Nothing) × (region_of 0x89EE ≡ Region.Nothing) × (region_of 0x8FFF ≡ Region.Nothing) }
{}
