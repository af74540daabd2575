//! The POKEYs.
ghost use Rattle.std.specs.Prelude.{◌≡◌, ◌+◌, ◌-◌, ◌^◌, ◌≤◌, ◌<◌, ◌&&◌, ◌++◌, true, length, min};
ghost use Rattle.board_base.specs.Counts.{Counted};
ghost use Rattle.board_base.specs.Ticks.{times};
ghost use Rattle.pokey_chip.specs.Registers.{pot_set, register_read, register_written};
ghost use Rattle.pokey_chip.specs.Tick.{levels_made, pokey_tick};
ghost use Rattle.catchup_devices.specs.Lags.{lags, AsksAt};
ghost use Rattle.lockstep_board.specs.Peripherals.{has_request};

use board_base::{CLOCK_END, PokeyState, Trail};
use pokey_chip::SoundUnit;

/// A POKEY that was moved up to the clock `done`, its levels, whether its timer requests reach the
/// interrupt line, and where they do, the clock from which on it makes one.
#[derive(Drop)]
pub struct SoundCatchUp<P: SoundUnit> {
    pub unit: P,
    pub done: u64,
    pub wired: bool,
    pub request_at: u64,
    pub trail: Trail,
}

impl<P: SoundUnit> SoundCatchUp<P> {
    /// A POKEY in a state at a clock.
    pub fn new(
        mut unit: P,
        state: &PokeyState,
        clock: u64,
        wired: bool,
        trail: Trail,
    ) -> SoundCatchUp<P>
        requires clocks { clock ≤ CLOCK_END }
        ensures done { result.done ≡ clock }
        ensures wired { result.wired ≡ wired }
        ensures state { P.device result.unit ≡ state.now }
        ensures trail { result.trail ≡ trail }
        ensures asked { AsksAt result.done result.request_at (P.device result.unit) }
        ensures counted { Counted (P.calls unit) (P.calls result.unit) }
    {
        unit.load(state);
        let mut catch_up = SoundCatchUp {
            unit,
            done: clock,
            wired,
            request_at: 0,
            trail,
        };
        catch_up.ask();
        catch_up
    }

    /// Takes on a state at a clock.
    pub fn load(&mut self, state: &PokeyState, clock: u64)
        requires clocks { clock ≤ CLOCK_END }
        ensures done { self.new.done ≡ clock }
        ensures wired { self.new.wired ≡ self.old.wired }
        ensures state { P.device self.new.unit ≡ state.now }
        ensures trail { self.new.trail ≡ self.old.trail }
        ensures asked { AsksAt self.new.done self.new.request_at (P.device self.new.unit) }
        ensures counted { Counted (P.calls self.old.unit) (P.calls self.new.unit) }
    {
        self.unit.load(state);
        self.done = clock;
        self.ask();
    }

    /// Moves it up to a clock.
    #[tactic(auto, using(crate::proofs::CatchUpLaws::pokey))]
    pub fn catch_up(&mut self, clock: u64)
        requires before { self.old.done ≤ clock }
        requires room { clock ≤ self.old.done + self.old.trail.spare }
        requires clocks { clock ≤ CLOCK_END }
        ensures done { self.new.done ≡ clock }
        ensures state { P.device self.new.unit ≡ times pokey_tick (clock - self.old.done) (P.device self.old.unit) }
        ensures records { self.new.trail.records ≡ self.old.trail.records
            ++ levels_made self.old.done (clock - self.old.done) (P.device self.old.unit) }
        ensures until { self.old.done + self.old.trail.spare ≤ self.new.done + self.new.trail.spare }
        ensures total { self.new.trail.spare + length self.new.trail.records ≡ self.old.trail.spare + length self.old.trail.records }
        ensures room { self.new.trail.room ≡ self.old.trail.room }
        ensures calls { P.calls self.new.unit ≤ P.calls self.old.unit + lags self.old.done clock }
        ensures more { min (P.calls self.old.unit) (2 ^ 64 - 1) ≤ P.calls self.new.unit }
        ensures wired { self.new.wired ≡ self.old.wired }
        ensures asked { AsksAt self.old.done self.old.request_at (P.device self.old.unit) → AsksAt self.new.done self.new.request_at (P.device self.new.unit) }
    {
        let n = clock - self.done;
        if n > 0 {
            self.unit.advance(self.done, n, &mut self.trail);
            self.done = clock;
        }
    }

    /// Reads a register, where it stands.
    #[inline(never)]
    pub fn read_register(&self, reg: u8) -> u8
        requires reg { reg < 16 }
        ensures { result ≡ register_read reg (P.device self.now.unit) }
    {
        self.unit.read(reg)
    }

    /// Writes a register, where it stands.
    pub fn write_register(&mut self, reg: u8, value: u8)
        requires clocks { self.old.done ≤ CLOCK_END }
        requires reg { reg < 16 }
        ensures state { P.device self.new.unit ≡ register_written reg value (P.device self.old.unit) }
        ensures counted { Counted (P.calls self.old.unit) (P.calls self.new.unit) }
        ensures done { self.new.done ≡ self.old.done }
        ensures wired { self.new.wired ≡ self.old.wired }
        ensures trail { self.new.trail ≡ self.old.trail }
        ensures asked { self.new.wired ≡ true → AsksAt self.new.done self.new.request_at (P.device self.new.unit) }
    {
        self.unit.write(reg, value);
        self.ask_again();
    }

    /// Sets the target of a pot, where it stands.
    pub fn set_pot(&mut self, which: u8, value: u8)
        requires clocks { self.old.done ≤ CLOCK_END }
        requires pot { which < 8 }
        ensures state { P.device self.new.unit ≡ pot_set which value (P.device self.old.unit) }
        ensures counted { Counted (P.calls self.old.unit) (P.calls self.new.unit) }
        ensures done { self.new.done ≡ self.old.done }
        ensures wired { self.new.wired ≡ self.old.wired }
        ensures trail { self.new.trail ≡ self.old.trail }
        ensures asked { self.new.wired ≡ true → AsksAt self.new.done self.new.request_at (P.device self.new.unit) }
    {
        self.unit.set_pot(which, value);
        self.ask_again();
    }

    /// Asks it anew after a change, where its requests are asked for.
    fn ask_again(&mut self)
        requires clocks { self.old.done ≤ CLOCK_END }
        ensures unit { self.new.unit ≡ self.old.unit }
        ensures done { self.new.done ≡ self.old.done }
        ensures wired { self.new.wired ≡ self.old.wired }
        ensures trail { self.new.trail ≡ self.old.trail }
        ensures asked { self.new.wired ≡ true → AsksAt self.new.done self.new.request_at (P.device self.new.unit) }
    {
        if self.wired {
            self.ask();
        }
    }

    /// Asks it from which clock on it makes a request.
    #[tactic(auto, using(crate::proofs::CatchUpLaws::asking))]
    fn ask(&mut self)
        requires clocks { self.old.done ≤ CLOCK_END }
        ensures unit { self.new.unit ≡ self.old.unit }
        ensures done { self.new.done ≡ self.old.done }
        ensures wired { self.new.wired ≡ self.old.wired }
        ensures trail { self.new.trail ≡ self.old.trail }
        ensures asked { AsksAt self.new.done self.new.request_at (P.device self.new.unit) }
    {
        self.request_at = match self.unit.quiet() {
            Some(clocks) => self.done.saturating_add(clocks),
            None => u64::MAX,
        };
    }

    /// Whether it asserts the interrupt line at a clock.
    #[inline(always)]
    pub fn asserts_irq(&self, clock: u64) -> bool
        requires clock { clock ≤ CLOCK_END }
        requires before { self.now.done ≤ clock }
        ensures { (self.now.wired ≡ true → AsksAt self.now.done self.now.request_at (P.device self.now.unit))
            → result ≡ (self.now.wired && has_request (times pokey_tick (clock - self.now.done) (P.device self.now.unit))) }
    {
        self.request_at <= clock && self.wired
    }

    /// Whether it asserts the interrupt line after the ticks of the clock that comes next after so
    /// many.
    #[inline(always)]
    #[tactic(auto, using(crate::proofs::CatchUpLaws::next_requests))]
    pub fn asserts_irq_next(&self, clock: u64) -> bool
        requires clock { clock < CLOCK_END }
        requires before { self.now.done ≤ clock }
        ensures { (self.now.wired ≡ true → AsksAt self.now.done self.now.request_at (P.device self.now.unit))
            → result ≡ (self.now.wired && has_request (pokey_tick (times pokey_tick (clock - self.now.done) (P.device self.now.unit)))) }
    {
        self.wired && self.request_at <= clock + 1
    }
}
