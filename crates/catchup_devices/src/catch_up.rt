//! A device that makes no records: the EAROM and the divider.
ghost use Rattle.std.specs.Prelude.{◌≡◌, ◌-◌, ◌≤◌, ◌<◌};
ghost use Rattle.catchup_devices.specs.Lags.{MovedBy};

use board_base::Clocked;

/// A device that was moved up to the clock `done`, and makes no records.
#[derive(Drop)]
pub struct CatchUp<U: Clocked> {
    pub unit: U,
    pub done: u64,
}

impl<U: Clocked> CatchUp<U> {
    /// Moves it up to a clock by `advance`, which isn't called where it stands there.
    #[inline(always)]
    pub fn catch_up<F: FnOnce(&mut U, u64)>(&mut self, clock: u64, advance: F)
        requires before { self.old.done ≤ clock }
        requires callable { F.IsAlwaysCallable advance }
        ensures done { self.new.done ≡ clock }
        ensures current { self.old.done ≡ clock → self.new.unit ≡ self.old.unit }
        ensures moved { self.old.done < clock → MovedBy F.FnOnce advance (clock - self.old.done) self.old.unit self.new.unit }
    {
        let clocks = clock - self.done;
        if clocks > 0 {
            advance(&mut self.unit, clocks);
            self.done = clock;
        }
    }
}
