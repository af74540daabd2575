ghost use Rattle.std.specs.Prelude.{◌≡◌, ◌+◌, ◌-◌, ◌≤◌, ◌<◌, ◌==◌, true, false, None, IfSome, IfOk, All, min};
ghost use Rattle.cpu_core.specs.Places.{IsMiddle};
ghost use Rattle.cpu_table.specs.Opcodes.{row_of};
ghost use Rattle.lockstep_board.specs.Budget.{budget};
ghost use Rattle.catchup_engine.specs.Calls.{CanRunTo, EndsWindow, IsReady, RunsTo, RunsToClock, RunsToStop, RunsTraced, Settles};
ghost use Rattle.catchup_engine.specs.EngineValue.{HasRoom, counted_on};
ghost use Rattle.lockstep_board.specs.Order.{cleared};
ghost use Rattle.lockstep_board.specs.Memory.{memory_byte};
ghost use Rattle.lockstep_board.specs.Run.{boundary_steps, cause_of, is_over, to_boundary, window_limit, IsPlaced};
ghost use Rattle.catchup_engine.specs.Trace.{step_trace};
ghost use Rattle.lockstep_board.specs.Peripherals.{board_of, reloaded, peripherals_of};

use crate::bus::BoardBus;
use crate::devices::Devices;
use crate::run::{run_to_cut, run_to_stop, run_traced, run_until};
use crate::stop_conditions::StopConditions;
use crate::trace::{Trace, trace_sequence};
use crate::tracer::Tracer;
use avg_device::VectorUnit;
use board_base::{BoardState, CLOCK_LIMIT, CpuState, DIVIDER_PERIOD, OutOfMemory, Trails};
use cpu_core::Cpu;
use earom_cells::CellUnit;
use irq_watchdog::DividerUnit;
use lockstep_board::Stop;
use pokey_chip::SoundUnit;
use rom_image::Image;
use std::alloc::Global;
use std::marker::Model;
use tape_ports::Tape;

/// The engine: a processor and five devices that lag behind it, which represent one lockstep board.
///
/// A device is synced where something can see it. What the engine represents is the board advanced
/// one clock at a time. An engine is ready where no device lags and no trail has a record: a load
/// and each run begin there, and the limit of a run is at most `CLOCK_LIMIT`.
#[derive(Drop)]
pub struct Engine<V: VectorUnit, P: SoundUnit, C: CellUnit, D: DividerUnit> {
    cpu: Cpu,
    bus: BoardBus<Devices<V, P, C, D>>,
    done: u64,
}

impl<V: VectorUnit, P: SoundUnit, C: CellUnit, D: DividerUnit> Model for Engine<V, P, C, D> {
    ghost use Rattle.std.specs.Prelude.{◌≡◌, false};
    ghost use Rattle.catchup_engine.specs.EngineValue.{EngineValue};
    ghost use Rattle.catchup_engine.specs.Lags.{lagging_of};
    ghost use Rattle.catchup_engine.specs.Runs.{IsInRange};

    ghost Value = { EngineValue };

    ghost view = { λ e. record {
      board = record { cpu = e.cpu; peripherals = e.bus.peripherals };
      lagging = lagging_of e.bus.lagging;
      rooms = e.bus.rooms;
      calls = e.bus.calls;
      done = e.done;
    } };

    ghost invariant = { λ e. (e.bus.clock_open ≡ false) × IsInRange e.cpu e.bus };
}

impl<V: VectorUnit, P: SoundUnit, C: CellUnit, D: DividerUnit> Engine<V, P, C, D> {
    /// An engine over an image, at a board, with no records; each trail has room for 6,160. It
    /// allocates all its memory: the trails, the RAM and a copy of the image. `wired` says whether
    /// the timer requests of the POKEYs reach the interrupt line. Five device calls.
    pub fn new(
        alloc: Global,
        image: &Image,
        state: &BoardState,
        devices: Devices<V, P, C, D>,
        wired: bool,
    ) -> Result<Engine<V, P, C, D>, OutOfMemory>
        requires undocumented { IfSome state.now.cpu.jam (λ o. row_of o ≡ None) }
        requires place { IfSome state.now.cpu.mid (λ _. IsMiddle state.now.cpu) }
        ensures board { IfOk result (λ e. e.board ≡ record { cpu = state.now.cpu; peripherals = peripherals_of image.now wired state.now }) }
        ensures settled { IfOk result (λ e. e.lagging ≡ 0) }
        ensures room { IfOk result (λ e. HasRoom e.rooms) }
        ensures calls { IfOk result (λ e. e.calls ≡ counted_on (V.calls devices.vector + P.calls devices.sound1 + P.calls devices.sound2
            + C.calls devices.cells + D.calls devices.divider) 5) }
        ensures done { IfOk result (λ e. e.done ≡ 0) }
    {
        // opens the model
        let _clock = state.clock;
        let bus = BoardBus::new(alloc, image, state, devices, wired)?;
        // opens its range
        let _room = bus.clock();
        Ok(Engine {
            cpu: Cpu::new(state.cpu),
            bus,
            done: 0,
        })
    }

    /// Takes on another board over the same image. Five device calls.
    pub fn load(&mut self, state: &BoardState)
        requires ready { IsReady self.old }
        requires undocumented { IfSome state.now.cpu.jam (λ o. row_of o ≡ None) }
        requires place { IfSome state.now.cpu.mid (λ _. IsMiddle state.now.cpu) }
        ensures value { self.new ≡ record self.old { board = record { cpu = state.now.cpu; peripherals = reloaded self.old.board.peripherals state.now }; calls = counted_on self.old.calls 5 } }
    {
        // opens the model
        let _clock = state.clock;
        self.bus.load(state);
        self.cpu = Cpu::new(state.cpu);
    }

    /// Counts the clocks done since one.
    fn count_clocks(&mut self, before: u64)
        requires { before ≤ self.old.board.peripherals.clock }
        ensures { self.new ≡ record self.old { done = counted_on self.old.done (self.old.board.peripherals.clock - before) } }
    {
        self.done = self.done.saturating_add(self.bus.clock() - before);
    }

    /// Runs to a boundary that isn't before this clock.
    fn advance(&mut self, tape: &Tape, limit: u64)
        requires ready { CanRunTo limit self.old }
        requires window { limit ≤ self.old.board.peripherals.clock + DIVIDER_PERIOD }
        ensures board { self.new.board ≡ to_boundary tape.now.entries limit self.old.board }
        ensures over { is_over limit self.new.board ≡ true }
        ensures boundary { self.new.board.cpu.mid ≡ None }
        ensures calls { self.new.calls ≤ self.old.calls + budget tape.now.entries (boundary_steps tape.now.entries limit self.old.board) self.old.board }
        ensures more { self.old.calls ≤ self.new.calls }
        ensures later { self.old.board.peripherals.clock ≤ self.new.board.peripherals.clock }
        ensures done { self.new.done ≡ counted_on self.old.done (self.new.board.peripherals.clock - self.old.board.peripherals.clock) }
        ensures rooms { self.new.rooms ≡ self.old.rooms }
    {
        let before = self.bus.clock();
        self.bus.lemma_room();
        self.bus.look_at(tape);
        let cpu = Cpu::new(*self.cpu.state());
        self.cpu = run_until(cpu, &mut self.bus, tape, limit);
        self.count_clocks(before);
    }

    /// Why a run to this limit has ended.
    fn cause(&self, limit: u64) -> Stop
        ensures { result ≡ cause_of limit self.now.board }
    {
        let state = self.cpu.state();
        match state.jam {
            Some(opcode) => Stop::Jammed {
                pc: state.pc,
                opcode,
            },
            None if limit <= self.bus.clock() => Stop::Limit,
            None => Stop::Window,
        }
    }

    /// Runs to the limit, or to the first boundary after the divider's next wrap where that comes
    /// first. A board that is jammed takes no clock; a sequence under way is ended first.
    #[tactic(auto, using(crate::proofs::Windows::windows))]
    pub fn run(&mut self, tape: &Tape, limit: u64) -> Stop
        requires ready { CanRunTo limit self.old }
        ensures runs { RunsTo tape.now.entries limit (window_limit limit self.old.board) self.old self.new result }
        ensures window { EndsWindow limit self.old self.new result }
    {
        let until = limit.min(self.bus.next_wrap());
        self.advance(tape, until);
        self.cause(limit)
    }

    /// Runs turn by turn, one turn at least, to the first boundary that isn't before the limit, at
    /// which it stops, or that comes after the divider's next wrap, whichever comes first. A board
    /// that is jammed takes no clock. Where the conditions ask the generator, each boundary may
    /// call it once.
    #[tactic(auto, using(crate::proofs::Windows::windows))]
    pub fn run_to_stop(&mut self, tape: &Tape, limit: u64, stops: &StopConditions<'_>)
        requires ready { CanRunTo limit self.old }
        requires before { self.old.board.peripherals.clock < limit }
        ensures runs { RunsToStop tape.now.entries limit stops.now self.old self.new }
    {
        let wrap = self.bus.next_wrap();
        let before = self.bus.clock();
        self.bus.lemma_room();
        self.bus.look_at(tape);
        let cpu = Cpu::new(*self.cpu.state());
        self.cpu = run_to_stop(cpu, &mut self.bus, tape, limit.min(wrap), stops);
        self.count_clocks(before);
    }

    /// Does what is left of the sequence under way, or else one instruction or sequence. A board
    /// that is jammed takes no clock.
    pub fn step(&mut self, tape: &Tape) -> Stop
        requires ready { CanRunTo (self.old.board.peripherals.clock + 1) self.old }
        ensures runs { RunsTo tape.now.entries (self.old.board.peripherals.clock + 1) (self.old.board.peripherals.clock + 1) self.old self.new result }
    {
        let limit = self.bus.clock() + 1;
        self.advance(tape, limit);
        self.cause(limit)
    }

    /// Does what `step` does, and returns its accesses, dropped reads included. A board that is
    /// jammed makes none.
    pub fn trace_step(&mut self, tape: &Tape, trace: &mut Trace) -> Stop
        requires ready { IsReady self.old }
        requires clock { self.old.board.cpu.mid ≡ None → self.old.board.peripherals.clock < CLOCK_LIMIT }
        ensures runs { RunsTo tape.now.entries (self.old.board.peripherals.clock + 1) (self.old.board.peripherals.clock + 1) self.old self.new result }
        ensures trace { trace.new ≡ step_trace tape.now.entries self.old.board }
    {
        let before = self.bus.clock();
        self.bus.lemma_room();
        self.bus.look_at(tape);
        let mut cpu = Cpu::new(*self.cpu.state());
        *trace = trace_sequence(&mut cpu, &mut self.bus, tape);
        self.cpu = cpu;
        self.count_clocks(before);
        self.cause(before + 1)
    }

    /// Runs turn by turn to the limit, to the first boundary after the divider's next wrap, or to
    /// where a tracer has enough, whichever comes first, and passes each turn to the tracer. A
    /// board that is jammed makes none.
    #[tactic(auto, using(crate::proofs::Windows::windows))]
    pub fn run_traced<T: Tracer>(&mut self, tape: &Tape, limit: u64, tracer: &mut T) -> Stop
        requires ready { CanRunTo limit self.old }
        ensures runs { RunsTraced T.next T.has_enough tape.now.entries limit self.old self.new tracer.old tracer.new result }
    {
        let wrap = self.bus.next_wrap();
        let before = self.bus.clock();
        self.bus.lemma_room();
        self.bus.look_at(tape);
        let cpu = Cpu::new(*self.cpu.state());
        self.cpu = run_traced(cpu, &mut self.bus, tape, limit.min(wrap), tracer);
        self.count_clocks(before);
        self.cause(limit)
    }

    /// Runs to this clock, inside a sequence too, or to the first boundary after the divider's next
    /// wrap where that comes first. A board that is jammed takes no clock.
    #[tactic(auto, using(crate::proofs::Windows::windows))]
    pub fn run_to(&mut self, tape: &Tape, cut: u64) -> Stop
        requires ready { CanRunTo cut self.old }
        ensures runs { RunsToClock tape.now.entries cut self.old self.new result }
        ensures window { EndsWindow cut self.old self.new result }
    {
        let wrap = self.bus.next_wrap();
        let before = self.bus.clock();
        self.bus.lemma_room();
        self.bus.look_at(tape);
        let cpu = Cpu::new(*self.cpu.state());
        self.cpu = run_to_cut(cpu, &mut self.bus, tape, cut, wrap);
        self.count_clocks(before);
        self.cause(cut)
    }

    /// Moves each device to the present clock. One that doesn't lag isn't called, so that there are
    /// as many device calls as devices that lag, or fewer.
    pub fn settle(&mut self)
        ensures settles { Settles self.old self.new }
    {
        self.bus.settle();
    }

    /// Whether no device lags.
    pub fn is_settled(&self) -> bool
        ensures { result ≡ (self.now.lagging == 0) }
    {
        self.bus.is_settled()
    }

    /// Copies the board.
    pub fn state(&self, into: &mut BoardState)
        requires settled { self.now.lagging ≡ 0 }
        ensures board { into.new ≡ board_of self.now.board.cpu self.now.board.peripherals }
        ensures undocumented { IfSome self.now.board.cpu.jam (λ o. row_of o ≡ None) }
        ensures place { IfSome self.now.board.cpu.mid (λ _. IsMiddle self.now.board.cpu) }
    {
        self.bus.state(self.cpu.state(), into);
    }

    /// The clocks done.
    pub fn clock(&self) -> u64
        ensures { result ≡ self.now.board.peripherals.clock }
    {
        self.bus.clock()
    }

    /// The processor.
    pub fn cpu(&self) -> &CpuState
        ensures { result.now ≡ self.now.board.cpu }
    {
        self.cpu.state()
    }

    /// Whether the vector generator is halted.
    pub fn is_halted(&self) -> bool
        requires settled { self.now.lagging ≡ 0 }
        ensures { result ≡ self.now.board.peripherals.vg.halted }
    {
        self.bus.is_halted()
    }

    /// The cells of the EAROM.
    pub fn earom_cells(&self) -> [u8; 64]
        requires settled { self.now.lagging ≡ 0 }
        ensures { result ≡ self.now.board.peripherals.earom.cells }
    {
        self.bus.earom_cells()
    }

    /// The levels of the four channels of POKEY 1, and those of POKEY 2, each 0 to 15.
    pub fn sound_levels(&self) -> ([u8; 4], [u8; 4])
        requires settled { self.now.lagging ≡ 0 }
        ensures sound1 { result.0 ≡ self.now.board.peripherals.sound1.last }
        ensures sound2 { result.1 ≡ self.now.board.peripherals.sound2.last }
        ensures range1 { All (λ level. level < 16) result.0 }
        ensures range2 { All (λ level. level < 16) result.1 }
    {
        self.bus.sound_levels()
    }

    /// The byte at an address of the RAM, the vector RAM or a ROM; none elsewhere.
    pub fn byte_at(&self, addr: u16) -> Option<u8>
        ensures { result ≡ memory_byte addr self.now.board.peripherals }
    {
        self.bus.byte_at(addr)
    }

    /// The records of each part since the last clearing, in order; those of a device that lags end
    /// at its own clock.
    pub fn trails(&self) -> Trails<'_>
        ensures vector { self.now.lagging ≡ 0 → result.vector.now.records ≡ self.now.board.peripherals.strokes }
        ensures sound1 { self.now.lagging ≡ 0 → result.sound1.now.records ≡ self.now.board.peripherals.levels1 }
        ensures sound2 { self.now.lagging ≡ 0 → result.sound2.now.records ≡ self.now.board.peripherals.levels2 }
        ensures board { result.board.now.records ≡ self.now.board.peripherals.written }
        ensures rooms { self.now.rooms ≡ record { vector = result.vector.now.room; sound1 = result.sound1.now.room; sound2 = result.sound2.now.room; board = result.board.now.room } }
    {
        self.bus.trails()
    }

    /// Removes the records, and leaves the board; the trails have their first room again.
    pub fn clear_trails(&mut self)
        requires settled { self.old.lagging ≡ 0 }
        ensures { self.new ≡ record self.old { board = cleared self.old.board } }
    {
        self.bus.clear_trails();
    }

    /// The sum of the device calls, or the greatest number of 64 bits.
    pub fn calls(&self) -> u64
        ensures { result ≡ self.now.calls }
    {
        self.bus.calls()
    }

    /// Gives the devices back, which have made its calls. Where none lags they are at the board.
    pub fn into_devices(self) -> Devices<V, P, C, D>
        ensures calls { self.calls ≡ counted_on (V.calls result.vector + P.calls result.sound1 + P.calls result.sound2
            + C.calls result.cells + D.calls result.divider) 0 }
        ensures vector { self.lagging ≡ 0 → V.device result.vector ≡ self.board.peripherals.vg }
        ensures sound1 { self.lagging ≡ 0 → P.device result.sound1 ≡ self.board.peripherals.sound1 }
        ensures sound2 { self.lagging ≡ 0 → P.device result.sound2 ≡ self.board.peripherals.sound2 }
        ensures cells { self.lagging ≡ 0 → C.device result.cells ≡ self.board.peripherals.earom }
        ensures divider { self.lagging ≡ 0 → D.device result.divider ≡ self.board.peripherals.divider }
    {
        let bus = self.bus;
        bus.into_devices()
    }

    /// The clocks that this engine has done since it was made, or the greatest number of 64 bits.
    pub fn done(&self) -> u64
        ensures { result ≡ self.now.done }
    {
        self.done
    }

    /// States the range of what a run can come to.
    pub fn lemma_range(&self)
        requires settled { self.now.lagging ≡ 0 }
        ensures placed { IsPlaced self.now.board }
        ensures clock { self.now.board.peripherals.clock ≤ CLOCK_LIMIT + 16 }
        ensures phase { self.now.board.peripherals.divider.phase < DIVIDER_PERIOD }
    {
        if let Some(mid) = self.cpu.state().mid {
            let _count = mid.count; // opens the model
        }
        self.bus.lemma_phase();
    }
}
