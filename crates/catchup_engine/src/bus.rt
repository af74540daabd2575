//! All of the board but its processor: the devices, what they share, and an access of the bus.
ghost use Rattle.std.specs.Prelude.{◌≡◌};
ghost use Rattle.catchup_engine.specs.Bus.{is_private};

mod clocking;
mod construction;
mod events;
mod lines;
mod regions;
mod state;

use crate::devices::Units;
use board_base::{Ports, RAM_LEN, Trail, VectorMemory};
use catchup_devices::{CatchUp, SoundCatchUp, VectorCatchUp};
use cpu_core::Bus;
use rom_image::PROGRAM_ROM_START;
use std::marker::Model;
use tape_ports::Tape;

/// The records that each trail has room for: a window has at most `DIVIDER_PERIOD` clocks to the
/// divider's wrap and six more, and a clock makes one record of each part at most.
pub const TRAIL_ROOM: usize = 6160;

/// The first address of the program ROM.
pub(crate) const PROGRAM_START: u16 = PROGRAM_ROM_START;

/// Whether an address is one of the RAM or of the program ROM, which the processor alone reaches.
#[inline(always)]
pub(crate) fn is_private(addr: u16) -> bool
    ensures { result ≡ is_private addr }
{
    addr < RAM_LEN as u16 || addr >= PROGRAM_START
}

/// The most clocks of a sequence.
pub(crate) const MAX_SEQUENCE_CLOCKS: u8 = 7;

/// All of the board but its processor: the devices, each moved up to a clock of its own, and what
/// they share.
///
/// A device is synced where it is reached, and the divider where its line is read and at its wraps:
/// its latch, its watchdog and its reset are the same before its ticks and after them. So in most
/// clocks nothing moves but the number of clocks.
#[derive(Drop)]
pub(crate) struct BoardBus<S: Units> {
    vector: VectorCatchUp<S::Vector>,
    sound1: SoundCatchUp<S::Sound>,
    sound2: SoundCatchUp<S::Sound>,
    cells: CatchUp<S::Cells>,
    divider: CatchUp<S::Divider>,
    memory: VectorMemory,
    ram: Vec<u8>,
    program: Vec<u8>,
    ports: Ports,
    clock: u64,
    clock_open: bool,
    wrap_at: u64,
    tape_pos: usize,
    event_at: u64,
    written: Trail,
}

impl<S: Units> Model for BoardBus<S> {
    ghost use Rattle.std.specs.Prelude.{◌≡◌, ◌+◌, ◌-◌, ◌≤◌, ◌<◌, ◌^◌, true, length, min};
    ghost use Rattle.earom_cells.specs.Tick.{earom_tick};
    ghost use Rattle.irq_watchdog.specs.Tick.{divider_tick};
    ghost use Rattle.pokey_chip.specs.Tick.{pokey_tick};
    ghost use Rattle.catchup_engine.specs.declared.bus.TheConstants.{TRAIL_ROOM};
    ghost use Rattle.catchup_engine.specs.Bus.{BusValue};
    ghost use Rattle.catchup_engine.specs.Stands.{HasNoWrapInItsLag, HasSpareForLag, HoldsTheRest, IsKnownToAsk, IsNotAhead, after_lag, generator_after_lag, with_lags_levels, with_lags_strokes};
    ghost use Rattle.catchup_devices.specs.Lags.{lags};

    ghost Value = { BusValue };

    ghost view = { λ a. record {
      peripherals = record {
        clock = a.clock;
        wired = a.sound1.wired;
        ports = a.ports;
        divider = after_lag divider_tick a.divider.done a.clock (S.Divider.device a.divider.unit);
        vg = generator_after_lag a.memory a.vector.done a.clock (S.Vector.device a.vector.unit);
        sound1 = after_lag pokey_tick a.sound1.done a.clock (S.Sound.device a.sound1.unit);
        sound2 = after_lag pokey_tick a.sound2.done a.clock (S.Sound.device a.sound2.unit);
        earom = after_lag earom_tick a.cells.done a.clock (S.Cells.device a.cells.unit);
        ram = a.ram.items;
        memory = a.memory;
        program = a.program.items;
        strokes = with_lags_strokes a.memory a.vector.done a.clock (S.Vector.device a.vector.unit) a.vector.trail.records;
        levels1 = with_lags_levels a.sound1.done a.clock (S.Sound.device a.sound1.unit) a.sound1.trail.records;
        levels2 = with_lags_levels a.sound2.done a.clock (S.Sound.device a.sound2.unit) a.sound2.trail.records;
        written = a.written.records;
      };
      clock_open = a.clock_open;
      tape_pos = a.tape_pos;
      event_at = a.event_at;
      lagging = record { vector = lags a.vector.done a.clock; sound1 = lags a.sound1.done a.clock; sound2 = lags a.sound2.done a.clock; cells = lags a.cells.done a.clock; divider = lags a.divider.done a.clock };
      until = min (a.vector.done + a.vector.trail.spare) (min (a.sound1.done + a.sound1.trail.spare) (a.sound2.done + a.sound2.trail.spare));
      rooms = record { vector = a.vector.trail.room; sound1 = a.sound1.trail.room; sound2 = a.sound2.trail.room; board = a.written.room };
      calls = min (S.Vector.calls a.vector.unit + S.Sound.calls a.sound1.unit + S.Sound.calls a.sound2.unit + S.Cells.calls a.cells.unit + S.Divider.calls a.divider.unit) (2 ^ 64 - 1);
    } };

    ghost invariant = { λ a. HoldsTheRest a.clock a.ports.in0 a.ram.items a.program.items
        × IsNotAhead a.vector.done a.clock × IsNotAhead a.sound1.done a.clock × IsNotAhead a.sound2.done a.clock × IsNotAhead a.cells.done a.clock × IsNotAhead a.divider.done a.clock
        × HasNoWrapInItsLag (S.Divider.device a.divider.unit).phase a.divider.done a.clock a.wrap_at × (a.event_at < a.wrap_at)
        × (a.clock_open ≡ true → (1 ≤ a.clock) × (a.event_at ≡ 0))
        × IsKnownToAsk a.sound1.wired a.sound1.done a.sound1.request_at (S.Sound.device a.sound1.unit)
        × IsKnownToAsk a.sound2.wired a.sound2.done a.sound2.request_at (S.Sound.device a.sound2.unit) × (a.sound2.wired ≡ a.sound1.wired)
        × HasSpareForLag a.vector.done a.clock a.vector.trail.spare a.vector.trail.room a.vector.trail.records
        × HasSpareForLag a.sound1.done a.clock a.sound1.trail.spare a.sound1.trail.room a.sound1.trail.records
        × HasSpareForLag a.sound2.done a.clock a.sound2.trail.spare a.sound2.trail.room a.sound2.trail.records
        × (TRAIL_ROOM ≤ a.written.room) × (a.written.spare + length a.written.records ≡ a.written.room) };
}

impl<S: Units> Bus for BoardBus<S> {
    ghost use Rattle.std.specs.Prelude.{◌≡◌};
    ghost use Rattle.catchup_engine.specs.Bus.{Accepts, BusStep, room_of};

    type Feed = Tape;

    ghost step = { λ tape x s t. BusStep tape.entries x s t };

    ghost accepts = { λ tape s. Accepts tape s };

    ghost room = { room_of };

    #[tactic(auto, using(crate::proofs::ClockLaws::accesses))]
    fn read(&mut self, tape: &Tape, addr: u16) -> u8 {
        self.enter(tape);
        self.byte(addr)
    }

    #[tactic(auto, using(crate::proofs::ClockLaws::accesses))]
    fn write(&mut self, tape: &Tape, addr: u16, value: u8) {
        self.enter(tape);
        self.put(addr, value);
    }
}
