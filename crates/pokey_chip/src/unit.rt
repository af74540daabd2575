ghost use Rattle.std.specs.Prelude.{◌≡◌, ℕ, ◌+◌, ◌<◌, ◌≤◌, length, MatchOption};
ghost use Rattle.board_base.specs.Counts.{Counted};
ghost use Rattle.board_base.specs.Pokey.{PokeyValue};
ghost use Rattle.board_base.specs.Records.{MadeBetween};
ghost use Rattle.board_base.specs.Ticks.{times};
ghost use Rattle.board_base.specs.Trail.{Extended};
ghost use Rattle.pokey_chip.specs.Quiet.{AnswersEachLag, IsEverQuiet, IsQuietBefore};
ghost use Rattle.pokey_chip.specs.Registers.{pot_set, register_read, register_written};
ghost use Rattle.pokey_chip.specs.Tick.{levels_made, pokey_gives, pokey_tick};

use board_base::{CLOCK_END, Clocked, Part, PokeyState, Trail};

/// A POKEY (C012294 data sheet; the pots, joined pairs and the order within a clock are this
/// project's own choice).
pub trait SoundUnit: Clocked {
    /// The POKEY as it stands.
    ghost device: { Self → PokeyValue };

    /// Takes on a state.
    fn load(&mut self, state: &PokeyState)
        ensures state { device self.new ≡ state.now }
        ensures counted { Counted (Self.calls self.old) (Self.calls self.new) };

    /// Does `n` clocks, the first of them `from`, and records the levels in each clock that changes
    /// them.
    fn advance(&mut self, from: u64, n: u64, trail: &mut Trail)
        requires room { n ≤ trail.old.spare }
        requires clocks { from + n ≤ CLOCK_END }
        ensures state { device self.new ≡ times pokey_tick n (device self.old) }
        ensures records { Extended trail.old trail.new (levels_made from n (device self.old)) }
        ensures counted { Counted (Self.calls self.old) (Self.calls self.new) };

    /// The byte that a register gives. A read changes nothing.
    fn read(&self, reg: u8) -> u8
        requires { reg < 16 }
        ensures { result ≡ register_read reg (device self.now) };

    /// Writes a register.
    fn write(&mut self, reg: u8, value: u8)
        requires { reg < 16 }
        ensures state { device self.new ≡ register_written reg value (device self.old) }
        ensures counted { Counted (Self.calls self.old) (Self.calls self.new) };

    /// Sets the target of a pot.
    fn set_pot(&mut self, which: u8, value: u8)
        requires { which < 8 }
        ensures state { device self.new ≡ pot_set which value (device self.old) }
        ensures counted { Counted (Self.calls self.old) (Self.calls self.new) };

    /// The clocks up to and with the first after which a request stands (IRQST isn't all ones),
    /// while no register is written; 0 where one stands already.
    fn quiet(&self) -> Option<u64>
        ensures exact { MatchOption result (IsEverQuiet (device self.now)) (λ n. IsQuietBefore (device self.now) n) }
        ensures lagging { AnswersEachLag (device self.now) result };

    /// The state as it stands.
    fn state(&self) -> PokeyState
        ensures { result ≡ device self.now };
}

/// A clock gives one record at most, so that a move has room where its trail has room for as many
/// records as there are clocks; and each record is of its own clock. It states a law, and does
/// nothing.
#[tactic(auto, using(crate::proofs::RecordLemmas::few_records))]
pub fn one_record_a_clock()
    ensures clock { (at : ℕ) → (p : PokeyValue) → length (pokey_gives at p) ≤ 1 }
    ensures clocks { (from : ℕ) → (n : ℕ) → (p : PokeyValue) → length (levels_made from n p) ≤ n }
    ensures level { (at : ℕ) → (p : PokeyValue)
        → MadeBetween Part.Pokey1 at (pokey_gives at p) (at + 1) × MadeBetween Part.Pokey2 at (pokey_gives at p) (at + 1) }
    ensures levels { (from : ℕ) → (n : ℕ) → (p : PokeyValue)
        → MadeBetween Part.Pokey1 from (levels_made from n p) (from + n) × MadeBetween Part.Pokey2 from (levels_made from n p) (from + n) }
{}
