//! The board advanced one clock at a time, which is what a run means: definitions and laws, and no
//! code but the cause for which a run ends and the devices that reads and writes use.
#![tactic(auto)]

mod laws;
pub mod stop;
pub mod uses;

pub use laws::{
    budget_in_parts, device_addresses, device_sets, devices_of_accesses, earlier_records,
    one_record_of_each_part, places_of_runs, runs_are_turns, split_runs, steps_keep_range,
    steps_of_split_runs, wraps_are_counted,
};
pub use stop::Stop;
pub use uses::{
    ALL_DEVICES, CELLS, DIVIDER, DeviceSet, NO_DEVICE, SOUND1, SOUND2, VECTOR, VECTOR_AND_DIVIDER,
    devices_read, devices_written,
};
