//! The places of the control bits of a POKEY, by what the data sheet (C012294) says of them.

/// AUDCTL: the base clock comes from the prescaler by 114 instead of that by 28.
pub(crate) const SLOW_BASE_CLOCK: u32 = 0;
/// AUDCTL: channel 2 has a high-pass filter, clocked by channel 4.
pub(crate) const HIGH_PASS_2: u32 = 1;
/// AUDCTL: channel 1 has a high-pass filter, clocked by channel 3.
pub(crate) const HIGH_PASS_1: u32 = 2;
/// AUDCTL: channels 3 and 4 are joined.
pub(crate) const JOIN_3_4: u32 = 3;
/// AUDCTL: channels 1 and 2 are joined.
pub(crate) const JOIN_1_2: u32 = 4;
/// AUDCTL: channel 3 is on the chip clock.
pub(crate) const CHIP_CLOCK_3: u32 = 5;
/// AUDCTL: channel 1 is on the chip clock.
pub(crate) const CHIP_CLOCK_1: u32 = 6;
/// AUDCTL: the long register is that of 9 bits instead of that of 17.
pub(crate) const NINE_BITS: u32 = 7;

/// AUDC: the level is the volume, whatever the signal is.
pub(crate) const VOLUME_ONLY: u32 = 4;
/// AUDC: the tone bit is turned over, and takes no noise.
pub(crate) const PURE_TONE: u32 = 5;
/// AUDC: the noise is that of the 4-bit register instead of the long one.
pub(crate) const FOUR_BITS: u32 = 6;
/// AUDC: the 5-bit register lets each underflow through.
pub(crate) const NO_FIVE_BITS: u32 = 7;

/// SKCTL: the pots are counted in each clock.
pub(crate) const FAST_POT_SCAN: u32 = 2;
