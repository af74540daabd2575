ghost use Rattle.std.specs.Prelude.{◌≡◌};
ghost use Rattle.outside_io.specs.Causes.{HasCause};
ghost use Rattle.outside_io.specs.Sink.{Takes};
ghost use Rattle.board_debug.specs.Looks.{stop_text};

use crate::stop_reason::StopReason;
use catchup_engine::Machine;
use outside_io::{Sink, SinkFault};
use text_line::Line;

/// The line of a stop: what was found, and the clock.
#[tactic(auto, using(std::proofs::Common::append_assoc), unfolding(crate::specs::Looks::stop_text))]
fn stop_line<M: Machine>(machine: &M, found: StopReason) -> Line
    ensures { result ≡ stop_text found (M.value machine.now).board }
{
    let line = Line::of("stop");
    let line = match found {
        StopReason::Jam(opcode) => line.word("jam").hex_word(machine.cpu().pc).hex_byte(opcode),
        StopReason::End => line.word("end"),
        StopReason::Break(address) => line.word("break").hex_word(address),
        StopReason::Watch(address) => line.word("watch").hex_word(address),
        StopReason::Vg => line.word("vg"),
        StopReason::Step => line.word("step"),
        StopReason::Until => line.word("until"),
    };
    line.word("at").number(machine.clock()).end()
}

/// Writes the line of a stop.
pub fn write_stop<M: Machine, O: Sink>(
    machine: &M,
    found: StopReason,
    out: &mut O,
) -> Result<(), SinkFault>
    ensures taken { Takes (O.taken out.old) (O.taken out.new) (stop_text found (M.value machine.now).board) result }
    ensures cause { HasCause (O.faults out.old) (O.faults out.new) result }
{
    out.write(stop_line(machine, found).bytes())
}
