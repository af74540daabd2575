//! The lines of a profile, which go out in blocks.
ghost use Rattle.std.specs.Prelude.{◌≡◌, ◌≤◌, ◌++◌, length};
ghost use Rattle.outside_io.specs.Causes.{HasCause};
ghost use Rattle.outside_io.specs.Sink.{Takes};
ghost use Rattle.outside_io.specs.Gathering.{Gathers};
ghost use Rattle.cycle_profile.specs.Text.{routine_line, routine_text, routines_text, total_text};

use crate::counts::Counts;
use crate::profile::ADDRESSES;
use outside_io::{BlockWriter, Sink, SinkFault};
use text_line::{LONGEST, Line};

/// The line of an address.
#[tactic(auto, unfolding(crate::specs::Text::routine_line))]
fn make_line(address: u16, counts: Counts) -> Line
    ensures text { result ≡ routine_line address counts }
    ensures len { length result ≤ LONGEST }
{
    Line::of("R")
        .hex_word(address)
        .number(counts.entries)
        .number(counts.clocks)
        .number(counts.accesses)
        .end()
}

/// The line of all clocks.
#[tactic(auto, unfolding(crate::specs::Text::total_text))]
fn make_total(clocks: u64) -> Line
    ensures text { result ≡ total_text clocks }
    ensures len { length result ≤ LONGEST }
{
    Line::new(b'T', clocks).end()
}

/// Puts the line of an address, where it has clocks.
fn put_routine<O: Sink>(
    block: &mut BlockWriter,
    address: u16,
    counts: Counts,
    out: &mut O,
) -> Result<(), SinkFault>
    ensures taken { Gathers (O.taken out.old) (O.taken out.new) (block.old ++ routine_text address counts) block.new result }
    ensures cause { HasCause (O.faults out.old) (O.faults out.new) result }
{
    if counts.clocks == 0 {
        return Ok(());
    }
    block.push(make_line(address, counts).bytes(), out)
}

/// Writes the lines of the addresses with clocks, in rising order, and then that of all clocks.
pub(crate) fn write_table<O: Sink>(
    counts: &[Counts],
    clocks: u64,
    out: &mut O,
) -> Result<(), SinkFault>
    requires { length counts.now ≤ ADDRESSES }
    ensures taken { Takes (O.taken out.old) (O.taken out.new) (routines_text 0 counts.now ++ total_text clocks) result }
    ensures cause { HasCause (O.faults out.old) (O.faults out.new) result }
{
    let mut block = BlockWriter::new();
    for address in 0..counts.len() {
        put_routine(&mut block, address as u16, counts[address], out)?;
    }
    block.push(make_total(clocks).bytes(), out)?;
    block.flush(out)
}
