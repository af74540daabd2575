//! What all parts of the board share: records and their trails, the states of the devices, the
//! words for ticks and times, and the numbers of the board.
#![tactic(auto)]

pub mod board;
pub mod cpu;
pub mod device;
pub mod divider;
pub mod earom;
pub mod laws;
pub mod memory;
pub mod part;
pub mod phase;
pub mod pokey;
pub mod record;
mod time;
pub mod trail;
pub mod vector_memory;
pub mod vg;

pub use board::{BoardState, CLOCK_END, CLOCK_LIMIT, Ports, RAM_LEN};
pub use cpu::{CpuState, Mid, Sequence};
pub use device::{Clocked, Device, PowerOn};
pub use divider::{DIVIDER_PERIOD, DividerState, Pending, WATCHDOG_WRAPS};
pub use earom::{CELLS, EaromState, HOLD_CLOCKS};
pub use laws::{board_numbers, states_at_power_on};
pub use memory::OutOfMemory;
pub use part::Part;
pub use pokey::{LONGEST_PERIOD, POT_LIMIT, PRESCALER_BASE, PRESCALER_LINE, PokeyState};
pub use record::Record;
pub use time::sooner;
pub use trail::{Trail, Trails};
pub use vector_memory::{VECTOR_LEN, VECTOR_RAM_LEN, VECTOR_ROM_LEN, VectorMemory};
pub use vg::{BEAM_EDGE, DELTA_EDGE, VgState};
