ghost use Rattle.std.specs.Prelude.{◌≡◌, ◌/◌, ◌^◌, ◌<◌};
ghost use Rattle.bit_words.specs.Residues.{residue};
ghost use Rattle.avg_decode.specs.Word.{IsInRange, IsLong, IsShort, second_of, setting_of, short_distance, spelling_of, word_of};

use crate::VgWord;
use crate::bits::{field_of, residue_of, signed_of};

/// Half a distance in a field of five bits, doubled.
fn short(n: u16) -> i16
    requires { n < 2 ^ 5 }
    ensures value { result ≡ short_distance n }
    ensures range { IsShort result }
{
    // With its sign bit flipped the field counts from the lowest distance up.
    ((2 * n) ^ 32) as i16 - 32
}

/// A `Stat` or a `Scal`.
fn setting(w: u16) -> VgWord
    ensures value { result ≡ setting_of w }
    ensures range { IsInRange result }
{
    if field_of(w, 12, 1) == 0 {
        VgWord::Stat {
            colour: field_of(w, 0, 3) as u8,
            intensity: field_of(w, 4, 4) as u8,
        }
    } else {
        VgWord::Scal {
            bin: field_of(w, 8, 3) as u8,
            lin: field_of(w, 0, 8) as u8,
        }
    }
}

/// The word that a number spells. Bits that no field has aren't looked at, so each number spells
/// one.
#[tactic(auto, unfolding(crate::specs::Word::word_of))]
pub fn word_kind(w: u16) -> VgWord
    ensures value { result ≡ word_of w }
    ensures range { IsInRange result }
{
    match field_of(w, 13, 3) {
        0 => VgWord::Vctr {
            dy: signed_of(field_of(w, 0, 13), 0x1000),
        },
        1 => VgWord::Halt,
        2 => VgWord::Svec {
            dx: short(field_of(w, 0, 5)),
            dy: short(field_of(w, 8, 5)),
            z: field_of(w, 5, 3) as u8,
        },
        3 => setting(w),
        4 => VgWord::Cntr,
        5 => VgWord::Jsrl {
            to: field_of(w, 0, 13),
        },
        6 => VgWord::Rtsl,
        _ => VgWord::Jmpl {
            to: field_of(w, 0, 13),
        },
    }
}

/// The `dx` and the `z` in the second word of a `Vctr`.
#[tactic(auto, unfolding(crate::specs::Word::second_of))]
pub fn second(w: u16) -> (i16, u8)
    ensures value { result ≡ second_of w }
    ensures dx { IsLong result.0 }
    ensures z { result.1 < 8 }
{
    (
        signed_of(field_of(w, 0, 13), 0x1000),
        field_of(w, 13, 3) as u8,
    )
}

/// Half of an even distance, in a field of five bits.
fn short_field(d: i16) -> u16
    requires { IsShort d }
    ensures value { result ≡ residue 64 d / 2 }
    ensures bound { result < 2 ^ 5 }
{
    residue_of(d, 64) / 2
}

/// The number that spells a word, with 0 in the bits that no field has.
#[tactic(auto, unfolding(crate::specs::Word::spelling_of))]
pub fn spell(v: VgWord) -> u16
    requires { IsInRange v }
    ensures value { result ≡ spelling_of v }
    ensures back { word_of result ≡ v }
{
    match v {
        VgWord::Vctr { dy } => residue_of(dy, 0x2000),
        VgWord::Halt => 0x2000,
        VgWord::Svec { dx, dy, z } => {
            0x4000 + 0x100 * short_field(dy) + 0x20 * u16::from(z) + short_field(dx)
        }
        VgWord::Stat { colour, intensity } => {
            0x6000 + 0x10 * u16::from(intensity) + u16::from(colour)
        }
        VgWord::Scal { bin, lin } => 0x7000 + 0x100 * u16::from(bin) + u16::from(lin),
        VgWord::Cntr => 0x8000,
        VgWord::Jsrl { to } => 0xA000 + to,
        VgWord::Rtsl => 0xC000,
        VgWord::Jmpl { to } => 0xE000 + to,
    }
}
