//! The debugger: sessions of a script's commands over a board that runs, the lines in which it
//! shows bytes and instructions, and the texts of boards, also of those sought along a run.
#![tactic(auto)]

mod board_text;
mod boards;
mod columns;
mod device_lines;
mod dis;
pub mod fault;
pub mod laws;
mod listings;
mod looks;
mod mem;
mod operand;
mod processor_lines;
pub mod script;
mod session;
mod statement;
mod stop_line;
pub mod stop_reason;
mod turns;
mod vdis;
mod write_lines;

pub use board_text::{write_board, write_devices, write_registers};
pub use boards::write_boards;
pub use dis::dis_line;
pub use fault::DebugFault;
pub use laws::{
    a_branch_shows_its_target, an_assembled_instruction_is_shown, an_assembled_opcode_is_shown,
    an_assembled_operand_is_shown, instructions_are_shown_as_they_are_decoded, line_widths,
};
pub use mem::{ROW, mem_line};
pub use script::run_script;
pub use stop_reason::StopReason;
pub use vdis::vdis_line;
