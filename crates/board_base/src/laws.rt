//! What holds of the numbers of a board and of its devices at power-on. Each is the contract of a
//! function that does nothing.
ghost use Rattle.std.specs.Prelude.{◌≡◌, ◌^◌};
ghost use Rattle.board_base.specs.Divider.{divider_at_power_on};
ghost use Rattle.board_base.specs.Earom.{earom_at_power_on};
ghost use Rattle.board_base.specs.Pokey.{pokey_at_power_on};
ghost use Rattle.board_base.specs.Vg.{vg_at_power_on};

use crate::board::{CLOCK_END, CLOCK_LIMIT, RAM_LEN};
use crate::device::PowerOn;
use crate::divider::{DIVIDER_PERIOD, DividerState, WATCHDOG_WRAPS};
use crate::earom::{CELLS, EaromState, HOLD_CLOCKS};
use crate::phase::{DRAW, EXECUTE, HIGH_BYTE, LOW_BYTE, SECOND_HIGH, SECOND_LOW};
use crate::pokey::{LONGEST_PERIOD, POT_LIMIT, PRESCALER_BASE, PRESCALER_LINE, PokeyState};
use crate::vector_memory::{VECTOR_LEN, VECTOR_RAM_LEN, VECTOR_ROM_LEN};
use crate::vg::{BEAM_EDGE, DELTA_EDGE, VgState};

/// The numbers of the board, each by its name in the definitions.
pub fn board_numbers()
    ensures clock { (CLOCK_LIMIT ≡ 2 ^ 48) × (CLOCK_END ≡ 2 ^ 49) }
    ensures memory { (RAM_LEN ≡ 2048) × (VECTOR_RAM_LEN ≡ 2048) × (VECTOR_ROM_LEN ≡ 14336) × (VECTOR_LEN ≡ 16384) }
    ensures phases { (LOW_BYTE ≡ 0) × (HIGH_BYTE ≡ 1) × (SECOND_LOW ≡ 2) × (SECOND_HIGH ≡ 3) × (EXECUTE ≡ 4) × (DRAW ≡ 5) }
    ensures beam { (BEAM_EDGE ≡ 2 ^ 30) × (DELTA_EDGE ≡ 2 ^ 27) }
    ensures pokey { (PRESCALER_BASE ≡ 28) × (PRESCALER_LINE ≡ 114) × (POT_LIMIT ≡ 228) × (LONGEST_PERIOD ≡ 65542) }
    ensures divider { (DIVIDER_PERIOD ≡ 6144) × (WATCHDOG_WRAPS ≡ 8) }
    ensures earom { (CELLS ≡ 64) × (HOLD_CLOCKS ≡ 1512) }
{}

/// What `Device::new` gives as the state of each device, by its name in the definitions.
pub fn states_at_power_on()
    ensures vg { ⟦<VgState as PowerOn>⟧.at_power_on ≡ vg_at_power_on }
    ensures pokey { ⟦<PokeyState as PowerOn>⟧.at_power_on ≡ pokey_at_power_on }
    ensures earom { ⟦<EaromState as PowerOn>⟧.at_power_on ≡ earom_at_power_on }
    ensures divider { ⟦<DividerState as PowerOn>⟧.at_power_on ≡ divider_at_power_on }
{}
