//! The bytes of a POKEY.
ghost use Rattle.std.specs.Prelude.{◌≡◌, ◌≤◌, ◌+◌, ◌++◌, ℕ, take, All};
ghost use Rattle.std.specs.List.{concat};
ghost use Rattle.save_state.specs.Fields.{pieces_of, rows_of, rows_at};
ghost use Rattle.save_state.specs.StateBytes.{tone_rows, channel_rows, pokey_rows};
ghost use Rattle.save_state.specs.Reading.{Holds};
ghost use Rattle.save_state.specs.Check.{pieces_in};

use crate::STATE_LEN;
use crate::bytes::Kind::{Any, Byte, Count, Long, Word};
use crate::bytes::{Field, array_at, byte_at, put, u16_at, u32_at};
use board_base::{LONGEST_PERIOD, POT_LIMIT, PRESCALER_BASE, PRESCALER_LINE, PokeyState};

/// A POKEY, from its own first byte.
pub static POKEY: [Field; 24] = [
    Field(0, Any(4)), // audf
    Field(4, Any(4)), // audc
    Field(8, Any(1)), // audctl
    Field(9, Any(1)), // skctl
    Field(10, Byte(7)), // irqen
    Field(11, Byte(7)), // irqst
    Field(12, Byte(15)), // poly4
    Field(13, Byte(31)), // poly5
    Field(14, Word(511)), // poly9
    Field(16, Long(131_071)), // poly17
    Field(20, Byte(PRESCALER_BASE - 1)), // pre28
    Field(21, Byte(PRESCALER_LINE - 1)), // pre114
    Field(22, Count(LONGEST_PERIOD)), // left
    Field(26, Count(LONGEST_PERIOD)),
    Field(30, Count(LONGEST_PERIOD)),
    Field(34, Count(LONGEST_PERIOD)),
    Field(38, Byte(15)), // tone
    Field(39, Byte(3)), // pass
    Field(40, Byte(POT_LIMIT)), // pot
    Field(41, Any(8)), // targets
    Field(49, Byte(15)), // last
    Field(50, Byte(15)),
    Field(51, Byte(15)),
    Field(52, Byte(15)),
];

/// A POKEY, whose first byte stands at `at`.
pub fn decode_pokey(file: &[u8; STATE_LEN], at: usize) -> PokeyState
    requires some { at + 53 ≤ STATE_LEN }
    requires range { (version : ℕ) × All (Holds version file.now) (rows_at at (rows_of (λ b. b.sound1) pokey_rows)) }
    ensures { pieces_of pokey_rows result ≡ pieces_in at file.now pokey_rows }
{
    PokeyState {
        audf: array_at(file, at),
        audc: array_at(file, at + 4),
        audctl: byte_at(file, at + 8),
        skctl: byte_at(file, at + 9),
        irqen: byte_at(file, at + 10),
        irqst: byte_at(file, at + 11),
        poly4: byte_at(file, at + 12),
        poly5: byte_at(file, at + 13),
        poly9: u16_at(file, at + 14),
        poly17: u32_at(file, at + 16),
        pre28: byte_at(file, at + 20),
        pre114: byte_at(file, at + 21),
        left: [
            u32_at(file, at + 22),
            u32_at(file, at + 26),
            u32_at(file, at + 30),
            u32_at(file, at + 34),
        ],
        tone: byte_at(file, at + 38),
        pass: byte_at(file, at + 39),
        pot: byte_at(file, at + 40),
        targets: array_at(file, at + 41),
        last: [
            byte_at(file, at + 49),
            byte_at(file, at + 50),
            byte_at(file, at + 51),
            byte_at(file, at + 52),
        ],
    }
}

/// Writes the registers of a POKEY, its polynomial registers and its prescalers.
fn put_registers(out: &mut [u8; STATE_LEN], at: usize, pokey: &PokeyState) -> usize
    requires { at + 22 ≤ STATE_LEN }
    ensures bytes { take result out.new ≡ take at out.old ++ concat (pieces_of tone_rows pokey.now) }
    ensures at { result ≡ at + 22 }
{
    let at = put(out, at, &pokey.audf);
    let at = put(out, at, &pokey.audc);
    let at = put(out, at, &[pokey.audctl]);
    let at = put(out, at, &[pokey.skctl]);
    let at = put(out, at, &[pokey.irqen]);
    let at = put(out, at, &[pokey.irqst]);
    let at = put(out, at, &[pokey.poly4]);
    let at = put(out, at, &[pokey.poly5]);
    let at = put(out, at, &pokey.poly9.to_le_bytes());
    let at = put(out, at, &pokey.poly17.to_le_bytes());
    let at = put(out, at, &[pokey.pre28]);
    put(out, at, &[pokey.pre114])
}

/// Writes the channels of a POKEY, and its pots.
fn put_channels(out: &mut [u8; STATE_LEN], at: usize, pokey: &PokeyState) -> usize
    requires { at + 31 ≤ STATE_LEN }
    ensures bytes { take result out.new ≡ take at out.old ++ concat (pieces_of channel_rows pokey.now) }
    ensures at { result ≡ at + 31 }
{
    let at = put(out, at, &pokey.left[0].to_le_bytes());
    let at = put(out, at, &pokey.left[1].to_le_bytes());
    let at = put(out, at, &pokey.left[2].to_le_bytes());
    let at = put(out, at, &pokey.left[3].to_le_bytes());
    let at = put(out, at, &[pokey.tone]);
    let at = put(out, at, &[pokey.pass]);
    let at = put(out, at, &[pokey.pot]);
    let at = put(out, at, &pokey.targets);
    let at = put(out, at, &[pokey.last[0]]);
    let at = put(out, at, &[pokey.last[1]]);
    let at = put(out, at, &[pokey.last[2]]);
    put(out, at, &[pokey.last[3]])
}

/// Writes a POKEY.
pub fn put_pokey(out: &mut [u8; STATE_LEN], at: usize, pokey: &PokeyState) -> usize
    requires { at + 53 ≤ STATE_LEN }
    ensures bytes { take result out.new ≡ take at out.old ++ concat (pieces_of pokey_rows pokey.now) }
    ensures at { result ≡ at + 53 }
{
    let at = put_registers(out, at, pokey);
    put_channels(out, at, pokey)
}
