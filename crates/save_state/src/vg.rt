//! The bytes of the vector generator.
ghost use Rattle.std.specs.Prelude.{◌≡◌, ◌≤◌, ◌+◌, ◌++◌, ℕ, take, All};
ghost use Rattle.std.specs.List.{concat};
ghost use Rattle.save_state.specs.Fields.{pieces_of, rows_of};
ghost use Rattle.save_state.specs.StateBytes.{vg_rows};
ghost use Rattle.save_state.specs.Reading.{Holds};
ghost use Rattle.save_state.specs.Check.{pieces_in};

use crate::STATE_LEN;
use crate::bytes::Kind::{Any, Byte, ClocksLeft, Signed, Word};
use crate::bytes::{Field, array_at, byte_at, i32_at, put, u16_at};
use board_base::phase::DRAW;
use board_base::{BEAM_EDGE, DELTA_EDGE, VgState};

/// The vector generator.
pub static GENERATOR: [Field; 19] = [
    Field(44, Byte(1)), // halted
    Field(45, Byte(DRAW)), // phase
    Field(46, Word(8191)), // pc
    Field(48, Byte(3)), // sp
    Field(49, Byte(7)), // colour
    Field(50, Byte(15)), // intensity
    Field(51, Any(1)), // lin
    Field(52, Byte(7)), // bin
    Field(53, Byte(15)), // pen
    Field(54, Any(4)), // bytes
    Field(58, Word(8191)), // stack
    Field(60, Word(8191)),
    Field(62, Word(8191)),
    Field(64, Word(8191)),
    Field(66, Signed(BEAM_EDGE)), // x
    Field(70, Signed(BEAM_EDGE)), // y
    Field(74, Signed(DELTA_EDGE)), // dx
    Field(78, Signed(DELTA_EDGE)), // dy
    Field(82, ClocksLeft),
];

/// The vector generator.
pub fn decode_vg(file: &[u8; STATE_LEN]) -> VgState
    requires { (version : ℕ) × All (Holds version file.now) (rows_of (λ b. b.vg) vg_rows) }
    ensures { pieces_of vg_rows result ≡ pieces_in 0 file.now vg_rows }
{
    VgState {
        halted: byte_at(file, 44) == 1,
        phase: byte_at(file, 45),
        pc: u16_at(file, 46),
        sp: byte_at(file, 48),
        colour: byte_at(file, 49),
        intensity: byte_at(file, 50),
        lin: byte_at(file, 51),
        bin: byte_at(file, 52),
        pen: byte_at(file, 53),
        bytes: array_at(file, 54),
        stack: [
            u16_at(file, 58),
            u16_at(file, 60),
            u16_at(file, 62),
            u16_at(file, 64),
        ],
        x: i32_at(file, 66),
        y: i32_at(file, 70),
        dx: i32_at(file, 74),
        dy: i32_at(file, 78),
        left: u16_at(file, 82),
    }
}

/// Writes the vector generator.
pub fn put_vg(out: &mut [u8; STATE_LEN], at: usize, vg: &VgState) -> usize
    requires { at + 40 ≤ STATE_LEN }
    ensures bytes { take result out.new ≡ take at out.old ++ concat (pieces_of vg_rows vg.now) }
    ensures at { result ≡ at + 40 }
{
    let at = put(out, at, &[u8::from(vg.halted)]);
    let at = put(out, at, &[vg.phase]);
    let at = put(out, at, &vg.pc.to_le_bytes());
    let at = put(out, at, &[vg.sp]);
    let at = put(out, at, &[vg.colour]);
    let at = put(out, at, &[vg.intensity]);
    let at = put(out, at, &[vg.lin]);
    let at = put(out, at, &[vg.bin]);
    let at = put(out, at, &[vg.pen]);
    let at = put(out, at, &vg.bytes);
    let at = put(out, at, &vg.stack[0].to_le_bytes());
    let at = put(out, at, &vg.stack[1].to_le_bytes());
    let at = put(out, at, &vg.stack[2].to_le_bytes());
    let at = put(out, at, &vg.stack[3].to_le_bytes());
    let at = put(out, at, &vg.x.to_le_bytes());
    let at = put(out, at, &vg.y.to_le_bytes());
    let at = put(out, at, &vg.dx.to_le_bytes());
    let at = put(out, at, &vg.dy.to_le_bytes());
    put(out, at, &vg.left.to_le_bytes())
}
