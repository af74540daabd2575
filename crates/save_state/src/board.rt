//! The bytes of a whole board.
ghost use Rattle.std.specs.Prelude.{◌≡◌, ℕ, IfSome, None, All};
ghost use Rattle.cpu_table.specs.Opcodes.{row_of};
ghost use Rattle.cpu_core.specs.Places.{IsMiddle};
ghost use Rattle.save_state.specs.Reading.{Holds, IsWhole, HasFields};
ghost use Rattle.save_state.specs.StateBytes.{table, state_bytes};
ghost use Rattle.save_state.specs.Check.{IsDecoded};

use crate::STATE_LEN;
use crate::bytes::Kind::{Any, Byte};
use crate::bytes::{Field, array_at, byte_at, put, u64_at};
use crate::divider::{decode_divider, put_divider};
use crate::earom::{decode_earom, put_earom};
use crate::pokey::{decode_pokey, put_pokey};
use crate::processor::{decode_processor, put_place, put_processor};
use crate::state_laws::lemma_ranges;
use crate::vg::{decode_vg, put_vg};
use board_base::BoardState;
use board_base::board::RAM_LEN;
use board_base::vector_memory::VECTOR_RAM_LEN;

/// The output latch and the ports.
pub static PORTS: [Field; 4] = [
    Field(21, Any(1)), // out
    Field(22, Byte(63)), // in0
    Field(23, Any(1)), // in3
    Field(24, Any(1)), // in4
];

/// Six zeros, which follow the place inside a sequence.
pub static ZEROS: [Field; 6] = [
    Field(38, Byte(0)),
    Field(39, Byte(0)),
    Field(40, Byte(0)),
    Field(41, Byte(0)),
    Field(42, Byte(0)),
    Field(43, Byte(0)),
];

/// Both memories.
pub static MEMORY: [Field; 2] = [Field(260, Any(RAM_LEN)), Field(2308, Any(VECTOR_RAM_LEN))];

/// The board of a file whose fields are all in their ranges.
pub fn decode(file: &[u8; STATE_LEN]) -> BoardState
    requires { (version : ℕ) × All (Holds version file.now) (table version) }
    ensures decoded { IsDecoded file.now result }
    ensures undocumented { IfSome result.cpu.jam (λ o. row_of o ≡ None) }
{
    BoardState {
        clock: u64_at(file, 4),
        cpu: decode_processor(file),
        out: byte_at(file, 21),
        in0: byte_at(file, 22),
        in3: byte_at(file, 23),
        in4: byte_at(file, 24),
        divider: decode_divider(file),
        vg: decode_vg(file),
        sound1: decode_pokey(file, 84),
        sound2: decode_pokey(file, 137),
        earom: decode_earom(file),
        ram: array_at(file, 260),
        vram: array_at(file, 2308),
    }
}

/// Writes a board, in version 2. Its processor is jammed by an undocumented opcode, stands inside a
/// sequence, or neither.
pub fn write(state: &BoardState, out: &mut [u8; STATE_LEN])
    requires undocumented { IfSome state.now.cpu.jam (λ o. row_of o ≡ None) }
    requires place { IfSome state.now.cpu.mid (λ _. IsMiddle state.now.cpu) }
    ensures bytes { out.new ≡ state_bytes state.now }
    ensures fields { HasFields 2 out.new state.now }
    ensures range { IsWhole state.now }
{
    lemma_ranges(state); // each part is in range
    let at = put_processor(out, 0, state.clock, &state.cpu);
    let at = put(out, at, &[state.out, state.in0, state.in3, state.in4]);
    let at = put_divider(out, at, &state.divider);
    let at = put_place(out, at, &state.cpu);
    let at = put(out, at, &[0; 6]);
    let at = put_vg(out, at, &state.vg);
    let at = put_pokey(out, at, &state.sound1);
    let at = put_pokey(out, at, &state.sound2);
    let at = put_earom(out, at, &state.earom);
    let at = put(out, at, &state.ram);
    put(out, at, &state.vram);
}
