//! The bytes of the EAROM.
ghost use Rattle.std.specs.Prelude.{◌≡◌, ◌≤◌, ◌+◌, ◌++◌, ℕ, take, All};
ghost use Rattle.std.specs.List.{concat};
ghost use Rattle.save_state.specs.Fields.{pieces_of, rows_of};
ghost use Rattle.save_state.specs.StateBytes.{earom_rows};
ghost use Rattle.save_state.specs.Reading.{Holds};
ghost use Rattle.save_state.specs.Check.{pieces_in};

use crate::STATE_LEN;
use crate::bytes::Kind::{Any, Byte, Word};
use crate::bytes::{Field, array_at, byte_at, put, u16_at};
use board_base::{EaromState, HOLD_CLOCKS};

/// The EAROM.
pub static EAROM: [Field; 6] = [
    Field(190, Byte(63)), // addr
    Field(191, Any(1)), // value
    Field(192, Byte(15)), // control
    Field(193, Word(HOLD_CLOCKS)), // hold
    Field(195, Any(1)), // out
    Field(196, Any(64)), // cells
];

/// The EAROM.
pub fn decode_earom(file: &[u8; STATE_LEN]) -> EaromState
    requires { (version : ℕ) × All (Holds version file.now) (rows_of (λ b. b.earom) earom_rows) }
    ensures { pieces_of earom_rows result ≡ pieces_in 0 file.now earom_rows }
{
    EaromState {
        addr: byte_at(file, 190),
        value: byte_at(file, 191),
        control: byte_at(file, 192),
        hold: u16_at(file, 193),
        out: byte_at(file, 195),
        cells: array_at(file, 196),
    }
}

/// Writes the EAROM.
pub fn put_earom(out: &mut [u8; STATE_LEN], at: usize, earom: &EaromState) -> usize
    requires { at + 70 ≤ STATE_LEN }
    ensures bytes { take result out.new ≡ take at out.old ++ concat (pieces_of earom_rows earom.now) }
    ensures at { result ≡ at + 70 }
{
    let at = put(out, at, &[earom.addr, earom.value, earom.control]);
    let at = put(out, at, &earom.hold.to_le_bytes());
    let at = put(out, at, &[earom.out]);
    put(out, at, &earom.cells)
}
