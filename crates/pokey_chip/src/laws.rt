//! What the bits and the registers of a POKEY are numbered. Each is the contract of a function that
//! does nothing.
ghost use Rattle.std.specs.Prelude.{◌≡◌};

use crate::control::{
    CHIP_CLOCK_1, CHIP_CLOCK_3, FAST_POT_SCAN, FOUR_BITS, HIGH_PASS_1, HIGH_PASS_2, JOIN_1_2,
    JOIN_3_4, NINE_BITS, NO_FIVE_BITS, PURE_TONE, SLOW_BASE_CLOCK, VOLUME_ONLY,
};
use crate::registers::{
    ALLPOT, AUDC4, AUDCTL, AUDF1, IRQEN, IRQST, POT0, POT7, POTGO, RANDOM, SKCTL, STIMER,
};

/// The bits of AUDCTL, of an AUDC and of SKCTL (C012294 data sheet).
pub fn control_bits()
    ensures audctl { (SLOW_BASE_CLOCK ≡ 0) × (HIGH_PASS_2 ≡ 1) × (HIGH_PASS_1 ≡ 2) × (JOIN_3_4 ≡ 3) × (JOIN_1_2 ≡ 4)
        × (CHIP_CLOCK_3 ≡ 5) × (CHIP_CLOCK_1 ≡ 6) × (NINE_BITS ≡ 7) }
    ensures audc { (VOLUME_ONLY ≡ 4) × (PURE_TONE ≡ 5) × (FOUR_BITS ≡ 6) × (NO_FIVE_BITS ≡ 7) }
    ensures skctl { FAST_POT_SCAN ≡ 2 }
{}

/// The registers that are written, and those that are read (C012294 data sheet).
pub fn register_numbers()
    ensures written { (AUDF1 ≡ 0x0) × (AUDC4 ≡ 0x7) × (AUDCTL ≡ 0x8) × (STIMER ≡ 0x9) × (POTGO ≡ 0xB) × (IRQEN ≡ 0xE) × (SKCTL ≡ 0xF) }
    ensures read { (POT0 ≡ 0x0) × (POT7 ≡ 0x7) × (ALLPOT ≡ 0x8) × (RANDOM ≡ 0xA) × (IRQST ≡ 0xE) }
{}
