//! A machine: what the crates above an engine call, in terms of the engine's value.
ghost use Rattle.std.specs.Prelude.{◌≡◌, ◌+◌, ◌-◌, ◌≤◌, ◌<◌, None, IfSome, All};
ghost use Rattle.board_base.specs.declared.divider.TheConstants.{DIVIDER_PERIOD};
ghost use Rattle.cpu_core.specs.Places.{IsMiddle};
ghost use Rattle.cpu_table.specs.Opcodes.{row_of};
ghost use Rattle.lockstep_board.specs.Memory.{memory_byte};
ghost use Rattle.lockstep_board.specs.Order.{cleared};
ghost use Rattle.lockstep_board.specs.Run.{window_limit, IsPlaced};
ghost use Rattle.lockstep_board.specs.Peripherals.{board_of, reloaded};
ghost use Rattle.catchup_engine.specs.Calls.{CanRunTo, EndsWindow, IsReady, RunsTo, RunsToClock, RunsToStop, RunsTraced, Settles};
ghost use Rattle.catchup_engine.specs.EngineValue.{EngineValue, counted_on};

use crate::engine::Engine;
use crate::stop_conditions::StopConditions;
use crate::tracer::Tracer;
use avg_device::VectorUnit;
use board_base::{BoardState, CLOCK_LIMIT, CpuState, Trails};
use earom_cells::CellUnit;
use irq_watchdog::DividerUnit;
use lockstep_board::Stop;
use pokey_chip::SoundUnit;
use tape_ports::Tape;

/// Something that runs a board, as an `Engine` does. The crates above take one by this trait, so
/// that they don't name the types of its devices. A machine is ready where no device lags and no
/// trail has a record: a load and each run begin there, and the limit of a run is at most
/// `CLOCK_LIMIT`.
pub trait Machine {
    /// What it is to its callers.
    ghost value: { Self → EngineValue };

    /// Takes on another board over the same image. Five device calls.
    fn load(&mut self, state: &BoardState)
        requires ready { IsReady (value self.old) }
        requires undocumented { IfSome state.now.cpu.jam (λ o. row_of o ≡ None) }
        requires place { IfSome state.now.cpu.mid (λ _. IsMiddle state.now.cpu) }
        ensures value { value self.new ≡ record (value self.old) { board = record { cpu = state.now.cpu; peripherals = reloaded (value self.old).board.peripherals state.now }; calls = counted_on (value self.old).calls 5 } };

    /// Runs to the limit, or to the first boundary after the divider's next wrap where that comes
    /// first. A board that is jammed takes no clock; a sequence under way is ended first.
    fn run(&mut self, tape: &Tape, limit: u64) -> Stop
        requires ready { CanRunTo limit (value self.old) }
        ensures runs { RunsTo tape.now.entries limit (window_limit limit (value self.old).board) (value self.old) (value self.new) result }
        ensures window { EndsWindow limit (value self.old) (value self.new) result };

    /// Runs turn by turn, one turn at least, to the first boundary that isn't before the limit, at
    /// which it stops, or that comes after the divider's next wrap, whichever comes first. A board
    /// that is jammed takes no clock. Where the conditions ask the generator, each boundary may
    /// call it once.
    fn run_to_stop(&mut self, tape: &Tape, limit: u64, stops: &StopConditions<'_>)
        requires ready { CanRunTo limit (value self.old) }
        requires before { (value self.old).board.peripherals.clock < limit }
        ensures runs { RunsToStop tape.now.entries limit stops.now (value self.old) (value self.new) };

    /// Does what is left of the sequence under way, or else one instruction or sequence. A board
    /// that is jammed takes no clock.
    fn step(&mut self, tape: &Tape) -> Stop
        requires ready { CanRunTo ((value self.old).board.peripherals.clock + 1) (value self.old) }
        ensures runs { RunsTo tape.now.entries ((value self.old).board.peripherals.clock + 1) ((value self.old).board.peripherals.clock + 1) (value self.old) (value self.new) result };

    /// Runs turn by turn to the limit, to the first boundary after the divider's next wrap, or to
    /// where a tracer has enough, whichever comes first, and passes each turn to the tracer. A
    /// board that is jammed makes none.
    fn run_traced<T: Tracer>(&mut self, tape: &Tape, limit: u64, tracer: &mut T) -> Stop
        requires ready { CanRunTo limit (value self.old) }
        ensures runs { RunsTraced T.next T.has_enough tape.now.entries limit (value self.old) (value self.new) tracer.old tracer.new result };

    /// Runs to this clock, inside a sequence too, or to the first boundary after the divider's next
    /// wrap where that comes first. A board that is jammed takes no clock.
    fn run_to(&mut self, tape: &Tape, cut: u64) -> Stop
        requires ready { CanRunTo cut (value self.old) }
        ensures runs { RunsToClock tape.now.entries cut (value self.old) (value self.new) result }
        ensures window { EndsWindow cut (value self.old) (value self.new) result };

    /// Moves each device to the present clock. One that doesn't lag isn't called, so that there are
    /// as many device calls as devices that lag, or fewer.
    fn settle(&mut self)
        ensures settles { Settles (value self.old) (value self.new) };

    /// Copies the board.
    fn state(&self, into: &mut BoardState)
        requires settled { (value self.now).lagging ≡ 0 }
        ensures board { into.new ≡ board_of (value self.now).board.cpu (value self.now).board.peripherals }
        ensures undocumented { IfSome (value self.now).board.cpu.jam (λ o. row_of o ≡ None) }
        ensures place { IfSome (value self.now).board.cpu.mid (λ _. IsMiddle (value self.now).board.cpu) };

    /// The clocks done.
    fn clock(&self) -> u64
        ensures { result ≡ (value self.now).board.peripherals.clock };

    /// The processor.
    fn cpu(&self) -> &CpuState
        ensures { result.now ≡ (value self.now).board.cpu };

    /// Whether the vector generator is halted.
    fn is_halted(&self) -> bool
        requires settled { (value self.now).lagging ≡ 0 }
        ensures { result ≡ (value self.now).board.peripherals.vg.halted };

    /// The cells of the EAROM.
    fn earom_cells(&self) -> [u8; 64]
        requires settled { (value self.now).lagging ≡ 0 }
        ensures { result ≡ (value self.now).board.peripherals.earom.cells };

    /// The levels of the four channels of POKEY 1, and those of POKEY 2, each 0 to 15.
    fn sound_levels(&self) -> ([u8; 4], [u8; 4])
        requires settled { (value self.now).lagging ≡ 0 }
        ensures sound1 { result.0 ≡ (value self.now).board.peripherals.sound1.last }
        ensures sound2 { result.1 ≡ (value self.now).board.peripherals.sound2.last }
        ensures range1 { All (λ level. level < 16) result.0 }
        ensures range2 { All (λ level. level < 16) result.1 };

    /// The byte at an address of the RAM, the vector RAM or a ROM; none elsewhere.
    fn byte_at(&self, addr: u16) -> Option<u8>
        ensures { result ≡ memory_byte addr (value self.now).board.peripherals };

    /// The records of each part since the last clearing, in order; those of a device that lags end
    /// at its own clock.
    fn trails(&self) -> Trails<'_>
        ensures vector { (value self.now).lagging ≡ 0 → result.vector.now.records ≡ (value self.now).board.peripherals.strokes }
        ensures sound1 { (value self.now).lagging ≡ 0 → result.sound1.now.records ≡ (value self.now).board.peripherals.levels1 }
        ensures sound2 { (value self.now).lagging ≡ 0 → result.sound2.now.records ≡ (value self.now).board.peripherals.levels2 }
        ensures board { result.board.now.records ≡ (value self.now).board.peripherals.written }
        ensures rooms { (value self.now).rooms ≡ record { vector = result.vector.now.room; sound1 = result.sound1.now.room; sound2 = result.sound2.now.room; board = result.board.now.room } };

    /// Removes the records, and leaves the board; the trails have their first room again.
    fn clear_trails(&mut self)
        requires settled { (value self.old).lagging ≡ 0 }
        ensures { value self.new ≡ record (value self.old) { board = cleared (value self.old).board } };

    /// The sum of the device calls, or the greatest number of 64 bits.
    fn calls(&self) -> u64
        ensures { result ≡ (value self.now).calls };

    /// States the range of what a run can come to.
    fn lemma_range(&self)
        requires settled { (value self.now).lagging ≡ 0 }
        ensures placed { IsPlaced (value self.now).board }
        ensures clock { (value self.now).board.peripherals.clock ≤ CLOCK_LIMIT + 16 }
        ensures phase { (value self.now).board.peripherals.divider.phase < DIVIDER_PERIOD };
}

impl<V: VectorUnit, P: SoundUnit, C: CellUnit, D: DividerUnit> Machine for Engine<V, P, C, D> {
    ghost value = { λ e. e };

    #[inline(always)]
    fn load(&mut self, state: &BoardState) {
        self.load(state)
    }

    #[inline(always)]
    fn run(&mut self, tape: &Tape, limit: u64) -> Stop {
        self.run(tape, limit)
    }

    #[inline(always)]
    fn run_to_stop(&mut self, tape: &Tape, limit: u64, stops: &StopConditions<'_>) {
        self.run_to_stop(tape, limit, stops)
    }

    #[inline(always)]
    fn step(&mut self, tape: &Tape) -> Stop {
        self.step(tape)
    }

    #[inline(always)]
    fn run_traced<T: Tracer>(&mut self, tape: &Tape, limit: u64, tracer: &mut T) -> Stop {
        self.run_traced(tape, limit, tracer)
    }

    #[inline(always)]
    fn run_to(&mut self, tape: &Tape, cut: u64) -> Stop {
        self.run_to(tape, cut)
    }

    #[inline(always)]
    fn settle(&mut self) {
        self.settle()
    }

    #[inline(always)]
    fn state(&self, into: &mut BoardState) {
        self.state(into)
    }

    #[inline(always)]
    fn clock(&self) -> u64 {
        self.clock()
    }

    #[inline(always)]
    fn cpu(&self) -> &CpuState {
        self.cpu()
    }

    #[inline(always)]
    fn is_halted(&self) -> bool {
        self.is_halted()
    }

    #[inline(always)]
    fn earom_cells(&self) -> [u8; 64] {
        self.earom_cells()
    }

    #[inline(always)]
    fn sound_levels(&self) -> ([u8; 4], [u8; 4]) {
        self.sound_levels()
    }

    #[inline(always)]
    fn byte_at(&self, addr: u16) -> Option<u8> {
        self.byte_at(addr)
    }

    #[inline(always)]
    fn trails(&self) -> Trails<'_> {
        self.trails()
    }

    #[inline(always)]
    fn clear_trails(&mut self) {
        self.clear_trails()
    }

    #[inline(always)]
    fn calls(&self) -> u64 {
        self.calls()
    }

    #[inline(always)]
    fn lemma_range(&self) {
        self.lemma_range()
    }
}
