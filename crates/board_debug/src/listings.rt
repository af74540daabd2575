//! The bytes and the instructions of a board, in lines.
ghost use Rattle.std.specs.Prelude.{◌≡◌, ◌≤◌, ◌*◌, ◌<◌};
ghost use Rattle.outside_io.specs.Causes.{HasCause};
ghost use Rattle.outside_io.specs.Sink.{Takes};
ghost use Rattle.board_debug.specs.Bytes.{bytes_from, further, mem_text};
ghost use Rattle.board_debug.specs.Instructions.{dis_text, readable};
ghost use Rattle.board_debug.specs.Session.{seen_in};
ghost use Rattle.board_debug.specs.Statements.{vdis_text, vg_further, word_seen};

use crate::dis::dis_line;
use crate::mem::{ROW, mem_line};
use crate::vdis::vdis_line;
use arrayvec::ArrayVec;
use board_base::VECTOR_LEN;
use board_map::VECTOR_RAM_START;
use catchup_engine::Machine;
use debug_script::Span;
use outside_io::{Sink, SinkFault};

/// So many bytes from an address on, 16 at most.
fn row<M: Machine>(machine: &M, address: u16, count: u16) -> ArrayVec<Option<u8>, ROW>
    requires { count ≤ ROW }
    ensures { result.items ≡ bytes_from (seen_in (M.value machine.now).board) address count }
{
    let mut bytes = ArrayVec::new();
    for i in 0..count {
        bytes.push(machine.byte_at(address.wrapping_add(i)));
    }
    bytes
}

/// Writes bytes, in lines of 16.
pub fn write_mem<M: Machine, O: Sink>(machine: &M, span: Span, out: &mut O) -> Result<(), SinkFault>
    ensures taken { Takes (O.taken out.old) (O.taken out.new) (mem_text (seen_in (M.value machine.now).board) span.from span.count) result }
    ensures cause { HasCause (O.faults out.old) (O.faults out.new) result }
{
    for k in 0..span.count.div_ceil(16) {
        let address = span.from.wrapping_add(16 * k);
        let bytes = row(machine, address, (span.count - 16 * k).min(16));
        out.write(mem_line(address, &bytes).bytes())?;
    }
    Ok(())
}

/// The bytes from an address on, up to the first that can't be seen, three at most.
fn instruction_bytes<M: Machine>(machine: &M, address: u16) -> ArrayVec<u8, 3>
    ensures { result.items ≡ readable (seen_in (M.value machine.now).board) address 3 }
{
    let mut bytes = ArrayVec::new();
    for i in 0..3 {
        match machine.byte_at(address.wrapping_add(i)) {
            Some(byte) => bytes.push(byte),
            None => return bytes,
        }
    }
    bytes
}

/// Writes instructions of the processor, a line each.
pub fn write_dis<M: Machine, O: Sink>(machine: &M, span: Span, out: &mut O) -> Result<(), SinkFault>
    ensures taken { Takes (O.taken out.old) (O.taken out.new) (dis_text (seen_in (M.value machine.now).board) span.from span.count) result }
    ensures cause { HasCause (O.faults out.old) (O.faults out.new) result }
{
    let mut address = span.from;
    for _shown in 0..span.count {
        let (line, size) = dis_line(address, &instruction_bytes(machine, address));
        out.write(line.bytes())?;
        address = address.wrapping_add(u16::from(size));
    }
    Ok(())
}

/// The word of the vector generator at an address.
fn word_at<M: Machine>(machine: &M, address: u16) -> u16
    ensures { result ≡ word_seen (seen_in (M.value machine.now).board) address }
{
    let low = machine.byte_at(address).unwrap_or(0);
    let high = machine.byte_at(address.wrapping_add(1)).unwrap_or(0);
    u16::from_le_bytes([low, high])
}

/// The address so many bytes further in the generator's memory.
fn further_on(address: u16, n: u8) -> u16
    ensures { result ≡ vg_further address n }
{
    VECTOR_RAM_START + (address.saturating_sub(VECTOR_RAM_START) + u16::from(n)) % VECTOR_LEN as u16
}

/// Writes instructions of the vector generator, a line each.
pub fn write_vdis<M: Machine, O: Sink>(
    machine: &M,
    span: Span,
    out: &mut O,
) -> Result<(), SinkFault>
    ensures taken { Takes (O.taken out.old) (O.taken out.new) (vdis_text (seen_in (M.value machine.now).board) span.from span.count) result }
    ensures cause { HasCause (O.faults out.old) (O.faults out.new) result }
{
    let mut address = span.from;
    for _shown in 0..span.count {
        let second = word_at(machine, further_on(address, 2));
        let (line, size) = vdis_line(address, word_at(machine, address), second);
        out.write(line.bytes())?;
        address = further_on(address, size);
    }
    Ok(())
}
