//! The generator.
ghost use Rattle.std.specs.Prelude.{◌≡◌, ◌+◌, ◌-◌, ◌^◌, ◌≤◌, ◌++◌, length, min};
ghost use Rattle.board_base.specs.Counts.{Counted};
ghost use Rattle.board_base.specs.Ticks.{made, ticks};
ghost use Rattle.avg_device.specs.Tick.{vg_gives, vg_tick};
ghost use Rattle.catchup_devices.specs.Lags.{lags};

use avg_device::VectorUnit;
use board_base::{CLOCK_END, Trail, VectorMemory, VgState};

/// A generator that was moved up to the clock `done`, and its strokes.
#[derive(Drop)]
pub struct VectorCatchUp<V: VectorUnit> {
    pub unit: V,
    pub done: u64,
    pub trail: Trail,
}

impl<V: VectorUnit> VectorCatchUp<V> {
    /// A generator in a state at a clock.
    pub fn new(mut unit: V, state: &VgState, clock: u64, trail: Trail) -> VectorCatchUp<V>
        ensures done { result.done ≡ clock }
        ensures state { V.device result.unit ≡ state.now }
        ensures trail { result.trail ≡ trail }
        ensures counted { Counted (V.calls unit) (V.calls result.unit) }
    {
        unit.load(state);
        VectorCatchUp {
            unit,
            done: clock,
            trail,
        }
    }

    /// Takes on a state at a clock.
    pub fn load(&mut self, state: &VgState, clock: u64)
        ensures done { self.new.done ≡ clock }
        ensures state { V.device self.new.unit ≡ state.now }
        ensures trail { self.new.trail ≡ self.old.trail }
        ensures counted { Counted (V.calls self.old.unit) (V.calls self.new.unit) }
    {
        self.unit.load(state);
        self.done = clock;
    }

    /// Moves it up to a clock.
    #[tactic(auto, using(crate::proofs::CatchUpLaws::generator))]
    pub fn catch_up(&mut self, memory: &VectorMemory, clock: u64)
        requires before { self.old.done ≤ clock }
        requires room { clock ≤ self.old.done + self.old.trail.spare }
        requires clocks { clock ≤ CLOCK_END }
        ensures done { self.new.done ≡ clock }
        ensures state { V.device self.new.unit ≡ ticks (vg_tick memory.now) self.old.done (clock - self.old.done) (V.device self.old.unit) }
        ensures records { self.new.trail.records ≡ self.old.trail.records
            ++ made (vg_tick memory.now) vg_gives self.old.done (clock - self.old.done) (V.device self.old.unit) }
        ensures until { self.old.done + self.old.trail.spare ≤ self.new.done + self.new.trail.spare }
        ensures total { self.new.trail.spare + length self.new.trail.records ≡ self.old.trail.spare + length self.old.trail.records }
        ensures room { self.new.trail.room ≡ self.old.trail.room }
        ensures calls { V.calls self.new.unit ≤ V.calls self.old.unit + lags self.old.done clock }
        ensures more { min (V.calls self.old.unit) (2 ^ 64 - 1) ≤ V.calls self.new.unit }
    {
        let n = clock - self.done;
        if n > 0 {
            self.unit.advance(memory, self.done, n, &mut self.trail);
            self.done = clock;
        }
    }
}
