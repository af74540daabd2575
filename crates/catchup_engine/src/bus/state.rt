//! The board with its devices synced: its state, and its records.
ghost use Rattle.std.specs.Prelude.{◌≡◌, ◌+◌, ◌-◌, ◌^◌, ◌≤◌, ◌<◌, ◌==◌, All, IsSome, min, []};
ghost use Rattle.catchup_engine.specs.Lags.{lagging_of, none_lags};
ghost use Rattle.lockstep_board.specs.Peripherals.{board_of};

use crate::bus::{BoardBus, TRAIL_ROOM};
use crate::devices::{Devices, Units};
use avg_device::VectorUnit;
use board_base::{BoardState, CLOCK_LIMIT, Clocked, CpuState, DIVIDER_PERIOD, PokeyState, Trails};
use earom_cells::CellUnit;
use irq_watchdog::DividerUnit;
use lockstep_board::ALL_DEVICES;
use pokey_chip::SoundUnit;

/// The levels of the four channels of a POKEY.
fn levels_of(sound: &PokeyState) -> [u8; 4]
    ensures last { result ≡ sound.now.last }
    ensures range { All (λ level. level < 16) result }
{
    sound.last
}

impl<S: Units> BoardBus<S> {
    /// Moves each device to the present clock. One that doesn't lag isn't called.
    pub fn settle(&mut self)
        ensures value { self.new ≡ record self.old { lagging = none_lags; until = self.new.until; calls = self.new.calls } }
        ensures until { self.old.until ≤ self.new.until }
        ensures calls { self.new.calls ≤ self.old.calls + lagging_of self.old.lagging }
        ensures more { self.old.calls ≤ self.new.calls }
        ensures few { lagging_of self.old.lagging ≤ 5 }
    {
        self.sync(ALL_DEVICES);
    }

    /// Whether the generator is halted.
    #[tactic(auto, using(board_base::proofs::TickLaws::level, crate::proofs::SettledLaws::settled))]
    pub fn is_halted(&self) -> bool
        ensures { lagging_of self.now.lagging ≡ 0 → result ≡ self.now.peripherals.vg.halted }
    {
        self.vector.unit.halted()
    }

    /// Whether no device lags.
    pub fn is_settled(&self) -> bool
        ensures { result ≡ (lagging_of self.now.lagging == 0) }
    {
        self.vector.done == self.clock
            && self.sound1.done == self.clock
            && self.sound2.done == self.clock
            && self.cells.done == self.clock
            && self.divider.done == self.clock
    }

    /// The device calls, or the greatest number of 64 bits.
    pub fn calls(&self) -> u64
        ensures { result ≡ self.now.calls }
    {
        self.vector
            .unit
            .calls()
            .saturating_add(self.sound1.unit.calls())
            .saturating_add(self.sound2.unit.calls())
            .saturating_add(self.cells.unit.calls())
            .saturating_add(self.divider.unit.calls())
    }

    /// Gives the devices back.
    #[tactic(auto, using(board_base::proofs::TickLaws::level, crate::proofs::SettledLaws::settled))]
    pub fn into_devices(self) -> Devices<S::Vector, S::Sound, S::Cells, S::Divider>
        ensures calls { self.calls ≡ min (S.Vector.calls result.vector + S.Sound.calls result.sound1 + S.Sound.calls result.sound2 + S.Cells.calls result.cells + S.Divider.calls result.divider) (2 ^ 64 - 1) }
        ensures vector { lagging_of self.lagging ≡ 0 → S.Vector.device result.vector ≡ self.peripherals.vg }
        ensures sound1 { lagging_of self.lagging ≡ 0 → S.Sound.device result.sound1 ≡ self.peripherals.sound1 }
        ensures sound2 { lagging_of self.lagging ≡ 0 → S.Sound.device result.sound2 ≡ self.peripherals.sound2 }
        ensures cells { lagging_of self.lagging ≡ 0 → S.Cells.device result.cells ≡ self.peripherals.earom }
        ensures divider { lagging_of self.lagging ≡ 0 → S.Divider.device result.divider ≡ self.peripherals.divider }
    {
        let BoardBus {
            vector,
            sound1,
            sound2,
            cells,
            divider,
            ..
        } = self;
        Devices {
            vector: vector.unit,
            sound1: sound1.unit,
            sound2: sound2.unit,
            cells: cells.unit,
            divider: divider.unit,
        }
    }

    /// Copies the board with this processor.
    #[tactic(auto, using(board_base::proofs::TickLaws::level, crate::proofs::SettledLaws::settled))]
    pub fn state(&self, cpu: &CpuState, into: &mut BoardState)
        requires settled { lagging_of self.now.lagging ≡ 0 }
        requires clock { self.now.peripherals.clock ≤ CLOCK_LIMIT + 16 }
        requires middle { IsSome cpu.now.mid → self.now.peripherals.clock ≤ CLOCK_LIMIT }
        ensures { into.new ≡ board_of cpu.now self.now.peripherals }
    {
        into.clock = self.clock;
        into.cpu = *cpu;
        into.set_ports(self.ports);
        into.divider = self.divider.unit.state();
        into.vg = self.vector.unit.state();
        into.sound1 = self.sound1.unit.state();
        into.sound2 = self.sound2.unit.state();
        into.earom = self.cells.unit.state();
        into.ram.copy_from_slice(&self.ram);
        into.vram.copy_from_slice(self.memory.ram());
    }

    /// The cells of the EAROM.
    #[tactic(auto, using(board_base::proofs::TickLaws::level, crate::proofs::SettledLaws::settled))]
    pub fn earom_cells(&self) -> [u8; 64]
        ensures { lagging_of self.now.lagging ≡ 0 → result ≡ self.now.peripherals.earom.cells }
    {
        self.cells.unit.state().cells
    }

    /// The levels of the four channels of POKEY 1, and those of POKEY 2.
    #[tactic(auto, using(board_base::proofs::TickLaws::level, crate::proofs::SettledLaws::settled))]
    pub fn sound_levels(&self) -> ([u8; 4], [u8; 4])
        ensures sound1 { lagging_of self.now.lagging ≡ 0 → result.0 ≡ self.now.peripherals.sound1.last }
        ensures sound2 { lagging_of self.now.lagging ≡ 0 → result.1 ≡ self.now.peripherals.sound2.last }
        ensures range1 { All (λ level. level < 16) result.0 }
        ensures range2 { All (λ level. level < 16) result.1 }
    {
        (
            levels_of(&self.sound1.unit.state()),
            levels_of(&self.sound2.unit.state()),
        )
    }

    /// The records of each part since the last clearing.
    #[tactic(auto, using(board_base::proofs::TickLaws::level, crate::proofs::SettledLaws::settled))]
    pub fn trails(&self) -> Trails<'_>
        ensures vector { lagging_of self.now.lagging ≡ 0 → result.vector.now.records ≡ self.now.peripherals.strokes }
        ensures sound1 { lagging_of self.now.lagging ≡ 0 → result.sound1.now.records ≡ self.now.peripherals.levels1 }
        ensures sound2 { lagging_of self.now.lagging ≡ 0 → result.sound2.now.records ≡ self.now.peripherals.levels2 }
        ensures board { result.board.now.records ≡ self.now.peripherals.written }
        ensures rooms { self.now.rooms ≡ record { vector = result.vector.now.room; sound1 = result.sound1.now.room; sound2 = result.sound2.now.room; board = result.board.now.room } }
    {
        Trails {
            vector: &self.vector.trail,
            sound1: &self.sound1.trail,
            sound2: &self.sound2.trail,
            board: &self.written,
        }
    }

    /// Removes the records.
    #[tactic(auto, using(board_base::proofs::TickLaws::level, crate::proofs::SettledLaws::settled))]
    pub fn clear_trails(&mut self)
        requires settled { lagging_of self.old.lagging ≡ 0 }
        ensures value { self.new ≡ record self.old { peripherals = record self.old.peripherals { strokes = []; levels1 = []; levels2 = []; written = [] }; until = self.new.until } }
    {
        self.vector.trail.clear();
        self.sound1.trail.clear();
        self.sound2.trail.clear();
        self.written.clear();
    }

    /// States that each trail of a device has room for the clocks of a window where it is empty.
    #[tactic(auto, using(crate::proofs::SettledLaws::settled))]
    pub fn lemma_room(&self)
        requires settled { lagging_of self.now.lagging ≡ 0 }
        requires strokes { self.now.peripherals.strokes ≡ [] }
        requires levels1 { self.now.peripherals.levels1 ≡ [] }
        requires levels2 { self.now.peripherals.levels2 ≡ [] }
        ensures { self.now.peripherals.clock + TRAIL_ROOM ≤ self.now.until }
    {
        // opens the model
        let _clock = self.clock;
    }

    /// States that the divider is before its wrap.
    #[tactic(auto, using(board_base::proofs::TickLaws::level, crate::proofs::SettledLaws::settled))]
    pub fn lemma_phase(&self)
        ensures { lagging_of self.now.lagging ≡ 0 → self.now.peripherals.divider.phase < DIVIDER_PERIOD }
    {
        // opens the model
        let _clock = self.clock;
    }
}
