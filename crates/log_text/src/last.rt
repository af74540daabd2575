ghost use Rattle.log_text.specs.LogText.{end_text, jam_text, last_text, cost_text};
ghost use Rattle.outside_io.specs.Causes.{HasCause};
ghost use Rattle.outside_io.specs.Sink.{Takes};

use outside_io::{Sink, SinkFault};
use text_line::Line;

/// Writes the last line of a run that reached its limit; `clock` is the board's.
#[tactic(auto, unfolding(crate::specs::LogText::end_text))]
pub fn write_end<O: Sink>(clock: u64, out: &mut O) -> Result<(), SinkFault>
    ensures taken { Takes (O.taken out.old) (O.taken out.new) (end_text clock) result }
    ensures cause { HasCause (O.faults out.old) (O.faults out.new) result }
{
    out.write(Line::new(b'E', clock).end().bytes())
}

/// Writes the last line of a run that an undocumented opcode stopped; `clock` and `pc` are the
/// board's.
#[tactic(auto, unfolding(crate::specs::LogText::jam_text))]
pub fn write_jam<O: Sink>(clock: u64, pc: u16, opcode: u8, out: &mut O) -> Result<(), SinkFault>
    ensures taken { Takes (O.taken out.old) (O.taken out.new) (jam_text clock pc opcode) result }
    ensures cause { HasCause (O.faults out.old) (O.faults out.new) result }
{
    let line = Line::new(b'X', clock).hex_word(pc).hex_byte(opcode).end();
    out.write(line.bytes())
}

/// Writes the last line of a run that has ended; `clock`, `pc` and `jam` are the board's, and `jam`
/// is the undocumented opcode that stopped it, if one did.
pub fn write_last<O: Sink>(
    clock: u64,
    pc: u16,
    jam: Option<u8>,
    out: &mut O,
) -> Result<(), SinkFault>
    ensures taken { Takes (O.taken out.old) (O.taken out.new) (last_text clock pc jam) result }
    ensures cause { HasCause (O.faults out.old) (O.faults out.new) result }
{
    match jam {
        Some(opcode) => write_jam(clock, pc, opcode, out),
        None => write_end(clock, out),
    }
}

/// Writes the line that states the device calls of a run.
#[tactic(auto, unfolding(crate::specs::LogText::cost_text))]
pub fn write_cost<O: Sink>(calls: u64, out: &mut O) -> Result<(), SinkFault>
    ensures taken { Takes (O.taken out.old) (O.taken out.new) (cost_text calls) result }
    ensures cause { HasCause (O.faults out.old) (O.faults out.new) result }
{
    out.write(Line::new(b'C', calls).end().bytes())
}
