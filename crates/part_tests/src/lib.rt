//! Tests of the chips, of the processor and of the small parts, of the files and I/O, and of the
//! assemblers, each in the file of its crate's name.
#![tactic(auto)]

#[cfg(test)]
mod asm_avg_tests;
#[cfg(test)]
mod asm_core_tests;
#[cfg(test)]
mod asm_cpu_tests;
#[cfg(test)]
mod asm_listing_tests;
#[cfg(test)]
mod asm_text_tests;
#[cfg(test)]
mod avg_device_tests;
#[cfg(test)]
mod board_base_tests;
#[cfg(test)]
mod cpu_alu_tests;
#[cfg(test)]
mod debug_script_tests;
#[cfg(test)]
mod earom_cells_tests;
#[cfg(test)]
mod fake_files;
#[cfg(test)]
mod file_shelf_tests;
#[cfg(test)]
mod flat_bus_tests;
#[cfg(test)]
mod irq_watchdog_tests;
#[cfg(test)]
mod outside_io_tests;
#[cfg(test)]
mod pokey_chip_tests;
#[cfg(test)]
mod pokey_poly_tests;
#[cfg(test)]
mod pokey_timer_tests;
#[cfg(test)]
mod rom_image_tests;
#[cfg(test)]
mod tape_ports_tests;
#[cfg(test)]
mod workload_gen_tests;
