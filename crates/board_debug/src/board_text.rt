ghost use Rattle.board_debug.specs.BoardText.{board_text, devices_text, place_text, registers_text};
ghost use Rattle.outside_io.specs.Causes.{HasCause};
ghost use Rattle.outside_io.specs.Sink.{Takes};

use crate::device_lines::{beam_line, divider_line, earom_line, pokey_line, ports_line, vg_line};
use crate::processor_lines::{clock_line, cpu_line, jam_line, mid_line};
use crate::write_lines::write_lines;
use board_base::{BoardState, CpuState};
use outside_io::{Sink, SinkFault};

/// Writes the clock and the processor's registers.
#[tactic(auto, unfolding(crate::specs::BoardText::registers_text))]
pub fn write_registers<O: Sink>(state: &BoardState, out: &mut O) -> Result<(), SinkFault>
    ensures taken { Takes (O.taken out.old) (O.taken out.new) (registers_text state.now) result }
    ensures cause { HasCause (O.faults out.old) (O.faults out.new) result }
{
    write_lines(&[clock_line(state), cpu_line(&state.cpu)], out)
}

/// Writes where the processor stands: its jam, and its place inside a sequence.
#[tactic(auto, unfolding(crate::specs::BoardText::place_text))]
fn write_place<O: Sink>(cpu: &CpuState, out: &mut O) -> Result<(), SinkFault>
    ensures taken { Takes (O.taken out.old) (O.taken out.new) (place_text cpu.now) result }
    ensures cause { HasCause (O.faults out.old) (O.faults out.new) result }
{
    match &cpu.mid {
        None => write_lines(&[jam_line(cpu)], out),
        Some(mid) => write_lines(&[jam_line(cpu), mid_line(mid)], out),
    }
}

/// Writes the ports and the devices.
#[tactic(auto, unfolding(crate::specs::BoardText::devices_text))]
pub fn write_devices<O: Sink>(state: &BoardState, out: &mut O) -> Result<(), SinkFault>
    ensures taken { Takes (O.taken out.old) (O.taken out.new) (devices_text state.now) result }
    ensures cause { HasCause (O.faults out.old) (O.faults out.new) result }
{
    let lines = [
        ports_line(state),
        divider_line(&state.divider),
        vg_line(&state.vg),
        beam_line(&state.vg),
        pokey_line("pk1", &state.sound1),
        pokey_line("pk2", &state.sound2),
        earom_line(&state.earom),
    ];
    write_lines(&lines, out)
}

/// Writes a board as text: its clock, its processor and its devices, a line each, LF at each end.
/// Digits of bytes and addresses are hexadecimal capitals, other numbers decimal.
///
/// After a fault of `out` a first part of the text was taken.
pub fn write_board<O: Sink>(state: &BoardState, out: &mut O) -> Result<(), SinkFault>
    ensures taken { Takes (O.taken out.old) (O.taken out.new) (board_text state.now) result }
    ensures cause { HasCause (O.faults out.old) (O.faults out.new) result }
{
    write_registers(state, out)?;
    write_place(&state.cpu, out)?;
    write_devices(state, out)
}
