ghost use Rattle.std.specs.Prelude.{◌≡◌, ◌^◌, ◌<◌};
ghost use Rattle.board_base.specs.Ticks.{times};
ghost use Rattle.pokey_poly.specs.declared.poly.Poly.TheVariants.{Four, Five, Nine, Seventeen};
ghost use Rattle.pokey_poly.specs.Shift.{shifted};

use pokey_poly::Poly;

/// The four polynomial registers of a POKEY, as wide as in its state: where all are
/// `u32`, LLVM keeps two of them in one vector register, and a shift takes twice as long.
#[derive(Clone, Copy, PartialEq, Eq)]
pub struct Registers {
    pub four: u8,
    pub five: u8,
    pub nine: u16,
    pub seventeen: u32,
    ghost four_bits: { four < 2 ^ 4 },
    ghost five_bits: { five < 2 ^ 5 },
    ghost nine_bits: { nine < 2 ^ 9 },
    ghost seventeen_bits: { seventeen < 2 ^ 17 },
}

impl Registers {
    /// All ones.
    pub fn ones() -> Registers
        ensures four { result.four ≡ 15 }
        ensures five { result.five ≡ 31 }
        ensures nine { result.nine ≡ 511 }
        ensures seventeen { result.seventeen ≡ 131071 }
    {
        Registers {
            four: 0xF,
            five: 0x1F,
            nine: 0x1FF,
            seventeen: 0x1FFFF,
        }
    }

    /// The registers after one clock.
    fn shifted(self) -> Registers
        ensures four { result.four ≡ shifted Four self.four }
        ensures five { result.five ≡ shifted Five self.five }
        ensures nine { result.nine ≡ shifted Nine self.nine }
        ensures seventeen { result.seventeen ≡ shifted Seventeen self.seventeen }
    {
        Registers {
            four: Poly::Four.shift(u32::from(self.four)) as u8,
            five: Poly::Five.shift(u32::from(self.five)) as u8,
            nine: Poly::Nine.shift(u32::from(self.nine)) as u16,
            seventeen: Poly::Seventeen.shift(self.seventeen),
        }
    }
}

/// The registers after this many clocks from all ones, shift by shift, with nothing else done in a
/// clock.
#[tactic(auto, using(crate::proofs::Slices::shifts))]
fn bare_shifts(clocks: u64) -> Registers
    ensures four { result.four ≡ times (shifted Four) clocks 15 }
    ensures five { result.five ≡ times (shifted Five) clocks 31 }
    ensures nine { result.nine ≡ times (shifted Nine) clocks 511 }
    ensures seventeen { result.seventeen ≡ times (shifted Seventeen) clocks 131071 }
{
    let mut registers = Registers::ones();
    for done in 0..clocks {
        registers = registers.shifted();
    }
    registers
}

/// The same at once.
fn leaps(clocks: u64) -> Registers
    ensures four { result.four ≡ times (shifted Four) clocks 15 }
    ensures five { result.five ≡ times (shifted Five) clocks 31 }
    ensures nine { result.nine ≡ times (shifted Nine) clocks 511 }
    ensures seventeen { result.seventeen ≡ times (shifted Seventeen) clocks 131071 }
{
    Registers {
        four: Poly::Four.leap(0xF, clocks) as u8,
        five: Poly::Five.leap(0x1F, clocks) as u8,
        nine: Poly::Nine.leap(0x1FF, clocks) as u16,
        seventeen: Poly::Seventeen.leap(0x1FFFF, clocks),
    }
}

/// How the registers are moved.
#[derive(Clone, Copy, PartialEq, Eq)]
pub enum Form {
    /// Shift by shift.
    Shifts,
    /// All shifts at once.
    Leap,
}

impl Form {
    /// What it is called in a report.
    pub fn name(self) -> &'static str {
        match self {
            Form::Shifts => "single shifts",
            Form::Leap => "leaps",
        }
    }

    /// The registers after so many shifts from all ones.
    pub fn shifts(self, clocks: u64) -> Registers
        ensures four { result.four ≡ times (shifted Four) clocks 15 }
        ensures five { result.five ≡ times (shifted Five) clocks 31 }
        ensures nine { result.nine ≡ times (shifted Nine) clocks 511 }
        ensures seventeen { result.seventeen ≡ times (shifted Seventeen) clocks 131071 }
    {
        match self {
            Form::Shifts => bare_shifts(clocks),
            Form::Leap => leaps(clocks),
        }
    }
}
