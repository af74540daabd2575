//! Tests of runs: the engine, what watches it, and the commands, each in the file of its crate's
//! name.
#![tactic(auto)]

#[cfg(test)]
mod catchup_engine_tests;
#[cfg(test)]
mod command_calls_tests;
#[cfg(test)]
mod cycle_profile_tests;
#[cfg(test)]
mod frame_list_tests;
#[cfg(test)]
mod gravitar_commands_tests;
#[cfg(test)]
mod keyframes_tests;
#[cfg(test)]
mod programs;
#[cfg(test)]
mod run_slices_tests;
#[cfg(test)]
mod run_stretch_calls_tests;
#[cfg(test)]
mod run_stretch_tests;
#[cfg(test)]
mod run_summary_tests;
