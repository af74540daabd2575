//! The bytes of the divider and the watchdog.
ghost use Rattle.std.specs.Prelude.{◌≡◌, ◌≤◌, ◌+◌, ◌++◌, ℕ, take, All};
ghost use Rattle.std.specs.List.{concat};
ghost use Rattle.save_state.specs.Fields.{pieces_of, rows_of};
ghost use Rattle.save_state.specs.StateBytes.{divider_rows};
ghost use Rattle.save_state.specs.Reading.{Holds};
ghost use Rattle.save_state.specs.Check.{pieces_in};

use crate::STATE_LEN;
use crate::bytes::Kind::{Byte, Word};
use crate::bytes::{Field, byte_at, put, u16_at};
use board_base::divider::DIVIDER_PERIOD;
use board_base::{DividerState, Pending, WATCHDOG_WRAPS};

/// The divider and the watchdog.
pub static DIVIDER: [Field; 4] = [
    Field(25, Word(DIVIDER_PERIOD - 1)), // phase
    Field(27, Byte(1)), // irq
    Field(28, Byte(WATCHDOG_WRAPS - 1)), // dog
    Field(29, Byte(2)), // pending
];

/// The divider and the watchdog.
pub fn decode_divider(file: &[u8; STATE_LEN]) -> DividerState
    requires { (version : ℕ) × All (Holds version file.now) (rows_of (λ b. b.divider) divider_rows) }
    ensures { pieces_of divider_rows result ≡ pieces_in 0 file.now divider_rows }
{
    DividerState {
        phase: u16_at(file, 25),
        irq: byte_at(file, 27) == 1,
        dog: byte_at(file, 28),
        pending: match byte_at(file, 29) {
            0 => Pending::Nothing,
            1 => Pending::Power,
            _ => Pending::Watchdog,
        },
    }
}

/// Writes the divider and the watchdog.
pub fn put_divider(out: &mut [u8; STATE_LEN], at: usize, divider: &DividerState) -> usize
    requires { at + 5 ≤ STATE_LEN }
    ensures bytes { take result out.new ≡ take at out.old ++ concat (pieces_of divider_rows divider.now) }
    ensures at { result ≡ at + 5 }
{
    let at = put(out, at, &divider.phase.to_le_bytes());
    let pending = divider.pending.number();
    put(out, at, &[u8::from(divider.irq), divider.dog, pending])
}
