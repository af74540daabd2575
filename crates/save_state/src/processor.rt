//! The bytes of the processor.
ghost use Rattle.std.specs.Prelude.{◌≡◌, ◌≢◌, ◌≤◌, ◌+◌, ◌++◌, ℕ, None, Some, IfSome, take, slice_index, All};
ghost use Rattle.std.specs.List.{concat};
ghost use Rattle.cpu_table.specs.Opcodes.{row_of};
ghost use Rattle.save_state.specs.Fields.{pieces_of};
ghost use Rattle.save_state.specs.StateBytes.{head_rows, clock_rows, register_rows, jam_rows, sequence_rows, place_rows, middle_at, processor_of, front_rows};
ghost use Rattle.save_state.specs.Reading.{Holds};
ghost use Rattle.save_state.specs.Check.{pieces_in};

use crate::STATE_LEN;
use crate::bytes::Kind::{Any, Byte, Clock, ClocksDone, Flags, JamOpcode, Letters, SequenceNumber};
use crate::bytes::{Field, array_at, put, u16_at};
use board_base::{CpuState, Mid, Sequence};

/// The fields up to the ports.
pub static PROCESSOR: [Field; 11] = [
    Field(0, Any(1)), // version
    Field(1, Letters),
    Field(4, Clock),
    Field(12, Any(2)), // pc
    Field(14, Any(1)), // a
    Field(15, Any(1)), // x
    Field(16, Any(1)), // y
    Field(17, Any(1)), // s
    Field(18, Flags),
    Field(19, Byte(1)), // jammed
    Field(20, JamOpcode),
];

/// The sequence and the clocks that are done of it. Six bytes of its accesses follow.
pub static PLACE: [Field; 2] = [Field(30, SequenceNumber), Field(31, ClocksDone)];

/// Version 1 has eight zeros there.
pub static NO_PLACE: [Field; 8] = [
    Field(30, Byte(0)),
    Field(31, Byte(0)),
    Field(32, Byte(0)),
    Field(33, Byte(0)),
    Field(34, Byte(0)),
    Field(35, Byte(0)),
    Field(36, Byte(0)),
    Field(37, Byte(0)),
];

/// The place inside a sequence.
fn decode_mid(file: &[u8; STATE_LEN]) -> Option<Mid>
    requires { slice_index file.now 31 ≤ 6 }
    ensures outside { slice_index file.now 30 ≡ 0 → result ≡ None }
    ensures inside { slice_index file.now 30 ≢ 0 → result ≡ Some (middle_at file.now) }
{
    let sequence = match file[30] {
        0 => return None,
        1 => Sequence::Opcode,
        2 => Sequence::Interrupt,
        _ => Sequence::Reset,
    };
    Some(Mid {
        sequence,
        count: file[31],
        bytes: array_at(file, 32),
    })
}

/// The processor.
pub fn decode_processor(file: &[u8; STATE_LEN]) -> CpuState
    requires front { (version : ℕ) × All (Holds version file.now) (front_rows version) }
    requires count { slice_index file.now 31 ≤ 6 }
    ensures pieces { pieces_of register_rows result ≡ pieces_in 0 file.now register_rows }
    ensures jam { pieces_of jam_rows result.jam ≡ pieces_in 0 file.now jam_rows }
    ensures undocumented { IfSome result.jam (λ o. row_of o ≡ None) }
    ensures outside { slice_index file.now 30 ≡ 0 → result.mid ≡ None }
    ensures inside { slice_index file.now 30 ≢ 0 → result ≡ processor_of file.now }
{
    CpuState {
        pc: u16_at(file, 12),
        a: file[14],
        x: file[15],
        y: file[16],
        s: file[17],
        p: file[18],
        jam: (file[19] == 1).then_some(file[20]),
        mid: decode_mid(file),
    }
}

/// Writes the version, the clock and the processor.
pub fn put_processor(out: &mut [u8; STATE_LEN], at: usize, clock: u64, cpu: &CpuState) -> usize
    requires { at + 21 ≤ STATE_LEN }
    ensures bytes { take result out.new ≡ take at out.old ++ concat (pieces_of head_rows 2 ++ (pieces_of clock_rows clock ++ pieces_of register_rows cpu.now) ++ pieces_of jam_rows cpu.now.jam) }
    ensures at { result ≡ at + 21 }
{
    let at = put(out, at, &[2, b'G', b'V', b'S']);
    let at = put(out, at, &clock.to_le_bytes());
    let at = put(out, at, &cpu.pc.to_le_bytes());
    let at = put(out, at, &[cpu.a, cpu.x, cpu.y, cpu.s, cpu.p]);
    let jam = [u8::from(cpu.jam.is_some()), cpu.jam.unwrap_or(0)];
    put(out, at, &jam)
}

/// Writes the place inside a sequence.
pub fn put_place(out: &mut [u8; STATE_LEN], at: usize, cpu: &CpuState) -> usize
    requires { at + 8 ≤ STATE_LEN }
    ensures bytes { take result out.new ≡ take at out.old ++ concat (pieces_of (sequence_rows ++ place_rows) cpu.now.mid) }
    ensures at { result ≡ at + 8 }
{
    let Some(mid) = cpu.mid else {
        return put(out, at, &[0; 8]);
    };
    let at = put(out, at, &[mid.sequence as u8 + 1, mid.count]);
    put(out, at, &mid.bytes)
}
