ghost use Rattle.std.specs.List.{concat};
ghost use Rattle.outside_io.specs.Causes.{HasCause};
ghost use Rattle.outside_io.specs.Sink.{Takes};

use outside_io::{Sink, SinkFault};
use text_line::Line;

/// Writes lines, one after another.
pub(crate) fn write_lines<O: Sink>(lines: &[Line], out: &mut O) -> Result<(), SinkFault>
    ensures taken { Takes (O.taken out.old) (O.taken out.new) (concat lines.now) result }
    ensures cause { HasCause (O.faults out.old) (O.faults out.new) result }
{
    for line in lines {
        out.write(line.bytes())?;
    }
    Ok(())
}
