ghost use Rattle.std.specs.Prelude.{◌≡◌, ◌≤◌};
ghost use Rattle.std.specs.Option.{option_map, IfSome};
ghost use Rattle.command_line.specs.Clocks.{AreListed};
ghost use Rattle.command_line.specs.Numbers.{clocks_of, cuts_of, number_of, per_of};

use arrayvec::ArrayVec;
use board_base::CLOCK_LIMIT;
use plain_text::read_digits;

/// The most cuts of a run, and the most clocks of a seek.
pub const CUTS: usize = 1000;

/// The most clocks of a sample.
pub const PER_LIMIT: u32 = 65_535;

/// A list of clocks: a run's cuts, or the clocks of a seek.
pub type Cuts = ArrayVec<u64, CUTS>;

/// The number of a word: 1 to 15 decimal digits, and at most `CLOCK_LIMIT`.
pub fn read_number(word: &[u8]) -> Option<u64>
    ensures { result ≡ number_of word.now }
{
    let number = read_digits(word)?;
    if number > CLOCK_LIMIT {
        return None;
    }
    Some(number)
}

/// The clocks of a sample, of a word: 1 to `PER_LIMIT`.
pub fn read_per(word: &[u8]) -> Option<u32>
    ensures per { result ≡ per_of word.now }
    ensures some { IfSome result (λ per. 1 ≤ per) }
    ensures few { IfSome result (λ per. per ≤ PER_LIMIT) }
{
    let per = read_number(word)?;
    if per < 1 || u64::from(PER_LIMIT) < per {
        return None;
    }
    // It is within 32 bits.
    Some(per as u32)
}

/// The list of clocks of a word: 1 to `CUTS` numbers with commas between them.
pub fn read_clocks(word: &str) -> Option<Cuts>
    ensures clocks { option_map (λ clocks. clocks.items) result ≡ clocks_of word.now }
    ensures listed { IfSome result (λ clocks. AreListed clocks.items) }
{
    let mut clocks = Cuts::new();
    for part in word.split(',') {
        let clock = read_number(part.as_bytes())?;
        if clocks.is_full() {
            return None;
        }
        clocks.push(clock);
    }
    Some(clocks)
}

/// The cuts of a word: a list of clocks that doesn't fall.
pub fn read_cuts(word: &str) -> Option<Cuts>
    ensures { option_map (λ cuts. cuts.items) result ≡ cuts_of word.now }
{
    let cuts = read_clocks(word)?;
    if !cuts.as_slice().is_sorted() {
        return None;
    }
    Some(cuts)
}
