ghost use Rattle.std.specs.Prelude.{◌≡◌, ℕ, ◌+◌, ◌-◌, ◌%◌, ◌^◌, ◌<◌, ◌≤◌};
ghost use Rattle.std.specs.Int.{bit_at};
ghost use Rattle.bit_words.specs.Bits.{is_bit};
ghost use Rattle.board_base.specs.Ticks.{times};
ghost use Rattle.pokey_poly.specs.Shift.{incoming, moved, shifted, tap_of, width_of, IsAhead};

/// A polynomial register, by its number of bits (POKEY C012294 data sheet).
#[derive(Clone, Copy, Debug, PartialEq, Eq)]
pub enum Poly {
    /// Of 4 bits.
    Four,
    /// Of 5 bits.
    Five,
    /// Of 9 bits.
    Nine,
    /// Of 17 bits.
    Seventeen,
}

/// How many shifts one move makes at most: with the bits of the longest register, as many as a word
/// has.
pub const REACH: u64 = 47;

/// The next 64 bits that leave the 4-bit register from each value on, the lowest first.
const FOUR_ON: [u64; 16] = [
    0x0000_0000_0000_0000,
    0x1EB2_3D64_7AC8_F591,
    0x23D6_47AC_8F59_1EB2,
    0x3D64_7AC8_F591_EB23,
    0x47AC_8F59_1EB2_3D64,
    0x591E_B23D_647A_C8F5,
    0x647A_C8F5_91EB_23D6,
    0x7AC8_F591_EB23_D647,
    0x8F59_1EB2_3D64_7AC8,
    0x91EB_23D6_47AC_8F59,
    0xAC8F_591E_B23D_647A,
    0xB23D_647A_C8F5_91EB,
    0xC8F5_91EB_23D6_47AC,
    0xD647_AC8F_591E_B23D,
    0xEB23_D647_AC8F_591E,
    0xF591_EB23_D647_AC8F,
];

/// The next 64 bits that leave the 5-bit register from each value on, the lowest first.
const FIVE_ON: [u64; 32] = [
    0x0000_0000_0000_0000,
    0x5763_E690_AEC7_CD21,
    0xAEC7_CD21_5D8F_9A42,
    0xF9A4_2BB1_F348_5763,
    0x0AEC_7CD2_15D8_F9A4,
    0x5D8F_9A42_BB1F_3485,
    0xA42B_B1F3_4857_63E6,
    0xF348_5763_E690_AEC7,
    0x15D8_F9A4_2BB1_F348,
    0x42BB_1F34_8576_3E69,
    0xBB1F_3485_763E_690A,
    0xEC7C_D215_D8F9_A42B,
    0x1F34_8576_3E69_0AEC,
    0x4857_63E6_90AE_C7CD,
    0xB1F3_4857_63E6_90AE,
    0xE690_AEC7_CD21_5D8F,
    0x2BB1_F348_5763_E690,
    0x7CD2_15D8_F9A4_2BB1,
    0x8576_3E69_0AEC_7CD2,
    0xD215_D8F9_A42B_B1F3,
    0x215D_8F9A_42BB_1F34,
    0x763E_690A_EC7C_D215,
    0x8F9A_42BB_1F34_8576,
    0xD8F9_A42B_B1F3_4857,
    0x3E69_0AEC_7CD2_15D8,
    0x690A_EC7C_D215_D8F9,
    0x90AE_C7CD_215D_8F9A,
    0xC7CD_215D_8F9A_42BB,
    0x3485_763E_690A_EC7C,
    0x63E6_90AE_C7CD_215D,
    0x9A42_BB1F_3485_763E,
    0xCD21_5D8F_9A42_BB1F,
];

impl Poly {
    /// The register after one shift.
    #[inline(always)]
    #[tactic(auto, unfolding(crate::specs::Shift::shifted))]
    pub fn shift(self, r: u32) -> u32
        requires in_range { r < 2 ^ width_of self }
        ensures value { result ≡ shifted self r }
        ensures below { (k : ℕ) → k + 1 < width_of self → is_bit result k ≡ is_bit r (k + 1) }
        ensures top { is_bit result (width_of self - 1) ≡ incoming (tap_of self) r }
        ensures in_range { result < 2 ^ width_of self }
    {
        match self {
            Poly::Four => moved_down(r, 1, 3),
            Poly::Five => moved_down(r, 2, 4),
            Poly::Nine => moved_down(r, 4, 8),
            Poly::Seventeen => moved_down(r, 5, 16),
        }
    }

    /// The register after `n` shifts, up to 47 of them in one move.
    #[inline(always)]
    #[tactic(auto, using(crate::proofs::LeapLaws::moves))]
    pub fn leap(self, r: u32, n: u64) -> u32
        requires in_range { r < 2 ^ width_of self }
        ensures value { result ≡ times (shifted self) n r }
        ensures in_range { result < 2 ^ width_of self }
    {
        let mut now = r;
        let mut left = self.wrapped(n);
        while left > REACH {
            now = self.after(now, REACH);
            left -= REACH;
        }
        self.after(now, left)
    }

    /// Fewer shifts that come to the same: the 9-bit register is back at each value after 511.
    #[inline(always)]
    #[tactic(auto, using(crate::proofs::TableLaws::periods))]
    fn wrapped(self, n: u64) -> u64
        ensures { (r : ℕ) → r < 2 ^ width_of self → times (shifted self) result r ≡ times (shifted self) n r }
    {
        match self {
            Poly::Nine => n % 511,
            Poly::Four | Poly::Five | Poly::Seventeen => n,
        }
    }

    /// The register after a move.
    #[inline(always)]
    fn after(self, r: u32, n: u64) -> u32
        requires in_range { r < 2 ^ width_of self }
        requires reach { n ≤ REACH }
        ensures value { result ≡ times (shifted self) n r }
        ensures in_range { result < 2 ^ width_of self }
    {
        self.window(self.ahead(r), n)
    }

    /// The register so many shifts after the one from which a word of bits leaves it: as it is a
    /// window on these bits, the word moves down.
    #[inline(always)]
    #[tactic(auto, using(crate::proofs::LeapLaws::windows))]
    pub fn window(self, ahead: u64, n: u64) -> u32
        requires ahead { IsAhead self (ahead % 2 ^ width_of self) (REACH + width_of self) ahead }
        requires reach { n ≤ REACH }
        ensures value { result ≡ times (shifted self) n (ahead % 2 ^ width_of self) }
        ensures in_range { result < 2 ^ width_of self }
    {
        let low = (1 << self.width()) - 1;
        ((ahead >> n) & low) as u32
    }

    /// The bit that leaves the register at one of the shifts of a word.
    #[inline(always)]
    #[tactic(auto, using(crate::proofs::LeapLaws::outputs))]
    pub fn output(self, ahead: u64, n: u64) -> bool
        requires ahead { IsAhead self (ahead % 2 ^ width_of self) (REACH + width_of self) ahead }
        requires reach { n ≤ REACH }
        ensures { result ≡ is_bit (times (shifted self) n (ahead % 2 ^ width_of self)) 0 }
    {
        (ahead >> n) & 1 == 1
    }

    /// How many bits the register has.
    #[inline(always)]
    fn width(self) -> u32
        ensures { result ≡ width_of self }
    {
        match self {
            Poly::Four => 4,
            Poly::Five => 5,
            Poly::Nine => 9,
            Poly::Seventeen => 17,
        }
    }

    /// The bits that leave the register from a value on, the lowest first; so the lowest are the
    /// value.
    #[inline(always)]
    #[tactic(auto, using(crate::proofs::TableLaws::tables))]
    pub fn ahead(self, r: u32) -> u64
        requires in_range { r < 2 ^ width_of self }
        ensures ahead { IsAhead self r (REACH + width_of self) result }
        ensures start { result % 2 ^ width_of self ≡ r }
    {
        match self {
            Poly::Four => FOUR_ON[r as usize],
            Poly::Five => FIVE_ON[r as usize],
            Poly::Nine => nine_on(r),
            Poly::Seventeen => seventeen_on(r),
        }
    }
}

/// The next 59 bits that leave the 9-bit register from a value on, the lowest first.
#[inline(always)]
fn nine_on(r: u32) -> u64
    requires in_range { r < 2 ^ 9 }
    ensures ahead { IsAhead Poly.Nine r 59 result }
{
    let mut ahead = u64::from(r);
    ahead = lengthened(ahead, 9, 4);
    ahead = lengthened(ahead, 9, 4);
    ahead = lengthened(ahead, 18, 8);
    ahead = lengthened(ahead, 18, 8);
    lengthened(ahead, 36, 16)
}

/// The next 64 bits that leave the 17-bit register from a value on, the lowest first.
#[inline(always)]
fn seventeen_on(r: u32) -> u64
    requires in_range { r < 2 ^ 17 }
    ensures ahead { IsAhead Poly.Seventeen r 64 result }
{
    let mut ahead = u64::from(r);
    ahead = lengthened(ahead, 17, 5);
    ahead = lengthened(ahead, 17, 5);
    lengthened(ahead, 34, 10)
}

/// A word whose bits below a place stay, and each from there on becomes the exclusive or of the bit
/// that stands so many places lower and of another, `tap` places above that.
///
/// Where each bit that leaves a register is the sum of two that left it before, it is also the sum
/// of two twice as far back; so a word grows by more, the more of these bits it has.
#[inline(always)]
#[tactic(auto, using(crate::proofs::LeapLaws::words))]
fn lengthened(word: u64, place: u32, tap: u32) -> u64
    requires tap { tap ≤ place }
    requires place { place < 64 }
    ensures low { (j : ℕ) → j < place → bit_at result j ≡ bit_at word j }
    ensures high { (j : ℕ) → j + place < 64 → bit_at result (j + place) ≡ (bit_at word j + bit_at word (j + tap)) % 2 }
{
    let coming = word ^ (word >> tap);
    word & ((1 << place) - 1) | (coming << place)
}

/// A register whose top bit has the place `top` after one shift, where bit `tap` goes with bit 0
/// into the new top bit.
#[inline(always)]
#[tactic(auto, using(crate::proofs::Moves::shifts))]
fn moved_down(r: u32, tap: u32, top: u32) -> u32
    requires tap { tap ≤ top }
    requires top { top < 31 }
    requires in_range { r < 2 ^ (top + 1) }
    ensures value { result ≡ moved (top + 1) tap r }
    ensures below { (k : ℕ) → k < top → is_bit result k ≡ is_bit r (k + 1) }
    ensures top { is_bit result top ≡ incoming tap r }
    ensures in_range { result < 2 ^ (top + 1) }
{
    let bit = ((r >> tap) ^ r) & 1;
    (r >> 1) | (bit << top)
}
