//! A board over an image, and another one in its place.
ghost use Rattle.std.specs.Prelude.{◌≡◌, ◌+◌, ◌-◌, ◌≤◌, ◌^◌, false, length, drop, take, min, IfOk, ◌++◌, []};
ghost use Rattle.catchup_engine.specs.Lags.{lagging_of, none_lags};
ghost use Rattle.catchup_engine.specs.NewBoard.{IsNew, peripherals_over};
ghost use Rattle.lockstep_board.specs.Peripherals.{reloaded, peripherals_of};

use crate::bus::{BoardBus, TRAIL_ROOM};
use crate::devices::{Devices, Units};
use avg_device::VectorUnit;
use board_base::{BoardState, OutOfMemory, Trail, VECTOR_ROM_LEN, VectorMemory};
use catchup_devices::{CatchUp, SoundCatchUp, VectorCatchUp};
use earom_cells::CellUnit;
use irq_watchdog::DividerUnit;
use pokey_chip::SoundUnit;
use rom_image::{Image, PROGRAM_ROM_LEN};
use std::alloc::Global;

/// The four trails of a board that runs from here.
#[derive(Drop)]
struct EmptyTrails {
    vector: Trail,
    sound1: Trail,
    sound2: Trail,
    written: Trail,
}

/// The bytes of a board: the vector memory, the RAM and the program ROM.
#[derive(Drop)]
struct BoardBytes {
    memory: VectorMemory,
    ram: Vec<u8>,
    program: Vec<u8>,
}

/// Trails with room for the records of a window each.
fn new_trails(alloc: Global) -> Result<EmptyTrails, OutOfMemory>
    ensures vector { IfOk result (λ trails. IsNew trails.vector) }
    ensures sound1 { IfOk result (λ trails. IsNew trails.sound1) }
    ensures sound2 { IfOk result (λ trails. IsNew trails.sound2) }
    ensures written { IfOk result (λ trails. IsNew trails.written) }
{
    Ok(EmptyTrails {
        vector: Trail::new(alloc, TRAIL_ROOM)?,
        sound1: Trail::new(alloc, TRAIL_ROOM)?,
        sound2: Trail::new(alloc, TRAIL_ROOM)?,
        written: Trail::new(alloc, TRAIL_ROOM)?,
    })
}

/// The bytes of the vector memory of a board over an image.
#[tactic(auto, using(crate::proofs::MemoryLaws::loads))]
fn new_memory(alloc: Global, image: &Image, state: &BoardState) -> Result<VectorMemory, OutOfMemory>
    ensures { IfOk result (λ memory. memory ≡ state.now.vram ++ take VECTOR_ROM_LEN image.now) }
{
    let (vector_rom, _) = image.bytes().split_at(VECTOR_ROM_LEN);
    let mut memory = VectorMemory::new(alloc, vector_rom)?;
    memory.load_ram(&state.vram);
    Ok(memory)
}

/// The bytes of a board over an image.
fn new_bytes(alloc: Global, image: &Image, state: &BoardState) -> Result<BoardBytes, OutOfMemory>
    ensures memory { IfOk result (λ bytes. bytes.memory ≡ state.now.vram ++ take VECTOR_ROM_LEN image.now) }
    ensures ram { IfOk result (λ bytes. bytes.ram.items ≡ state.now.ram) }
    ensures program { IfOk result (λ bytes. bytes.program.items ≡ drop VECTOR_ROM_LEN image.now) }
    ensures len { IfOk result (λ bytes. length bytes.program.items ≡ PROGRAM_ROM_LEN) }
{
    let memory = new_memory(alloc, image, state)?;
    let (_, program) = image.bytes().split_at(VECTOR_ROM_LEN);
    Ok(BoardBytes {
        memory,
        ram: Vec::from_slice(alloc, &state.ram)?,
        program: Vec::from_slice(alloc, program)?,
    })
}

impl<S: Units> BoardBus<S> {
    /// The peripherals of a board over an image. It allocates all the memory that the board needs.
    pub fn new(
        alloc: Global,
        image: &Image,
        state: &BoardState,
        devices: Devices<S::Vector, S::Sound, S::Cells, S::Divider>,
        wired: bool,
    ) -> Result<BoardBus<S>, OutOfMemory>
        ensures peripherals { IfOk result (λ bus. bus.peripherals ≡ peripherals_of image.now wired state.now) }
        ensures between { IfOk result (λ bus. bus.clock_open ≡ false) }
        ensures settled { IfOk result (λ bus. bus.lagging ≡ none_lags) }
        ensures calls { IfOk result (λ bus. bus.calls ≡ min (S.Vector.calls devices.vector + S.Sound.calls devices.sound1 + S.Sound.calls devices.sound2
            + S.Cells.calls devices.cells + S.Divider.calls devices.divider + 5) (2 ^ 64 - 1)) }
    {
        let trails = new_trails(alloc)?;
        let bytes = new_bytes(alloc, image, state)?;
        Ok(BoardBus::from_parts(trails, bytes, state, devices, wired))
    }

    /// The peripherals of a board with these trails and bytes.
    #[tactic(auto, using(board_base::proofs::TickLaws::level, crate::proofs::SettledLaws::synced))]
    fn from_parts(
        trails: EmptyTrails,
        bytes: BoardBytes,
        state: &BoardState,
        devices: Devices<S::Vector, S::Sound, S::Cells, S::Divider>,
        wired: bool,
    ) -> BoardBus<S>
        requires vector { IsNew trails.vector }
        requires sound1 { IsNew trails.sound1 }
        requires sound2 { IsNew trails.sound2 }
        requires written { IsNew trails.written }
        requires ram { bytes.ram.items ≡ state.now.ram }
        requires program { length bytes.program.items ≡ PROGRAM_ROM_LEN }
        ensures peripherals { result.peripherals ≡ peripherals_over wired state.now bytes.memory bytes.program.items }
        ensures between { result.clock_open ≡ false }
        ensures settled { result.lagging ≡ none_lags }
        ensures calls { result.calls ≡ min (S.Vector.calls devices.vector + S.Sound.calls devices.sound1 + S.Sound.calls devices.sound2
            + S.Cells.calls devices.cells + S.Divider.calls devices.divider + 5) (2 ^ 64 - 1) }
    {
        let Devices {
            vector,
            sound1,
            sound2,
            mut cells,
            mut divider,
        } = devices;
        let clock = state.clock;
        cells.load(&state.earom);
        divider.load(&state.divider);
        let wrap_at = clock + divider.quiet();
        BoardBus {
            vector: VectorCatchUp::new(vector, &state.vg, clock, trails.vector),
            sound1: SoundCatchUp::new(sound1, &state.sound1, clock, wired, trails.sound1),
            sound2: SoundCatchUp::new(sound2, &state.sound2, clock, wired, trails.sound2),
            cells: CatchUp {
                unit: cells,
                done: clock,
            },
            divider: CatchUp {
                unit: divider,
                done: clock,
            },
            memory: bytes.memory,
            ram: bytes.ram,
            program: bytes.program,
            ports: state.ports(),
            clock,
            clock_open: false,
            wrap_at,
            tape_pos: 0,
            event_at: 0,
            written: trails.written,
        }
    }

    /// Takes on another board over the same image.
    #[tactic(auto, using(board_base::proofs::TickLaws::level, crate::proofs::SettledLaws::settled, crate::proofs::SettledLaws::synced, crate::proofs::MemoryLaws::loads))]
    pub fn load(&mut self, state: &BoardState)
        requires settled { lagging_of self.old.lagging ≡ 0 }
        requires between { self.old.clock_open ≡ false }
        requires strokes { self.old.peripherals.strokes ≡ [] }
        requires levels1 { self.old.peripherals.levels1 ≡ [] }
        requires levels2 { self.old.peripherals.levels2 ≡ [] }
        requires written { self.old.peripherals.written ≡ [] }
        ensures value { self.new ≡ record self.old { peripherals = reloaded self.old.peripherals state.now; event_at = 0; lagging = none_lags; until = self.new.until; calls = self.new.calls } }
        ensures calls { self.new.calls ≡ min (self.old.calls + 5) (2 ^ 64 - 1) }
    {
        let done = state.clock;
        self.clock = done;
        self.event_at = 0;
        self.vector.load(&state.vg, done);
        self.sound1.load(&state.sound1, done);
        self.sound2.load(&state.sound2, done);
        self.cells.unit.load(&state.earom);
        self.cells.done = done;
        self.divider.unit.load(&state.divider);
        self.divider.done = done;
        self.wrap_at = done + self.divider.unit.quiet();
        self.ports = state.ports();
        self.ram.copy_from_slice(&state.ram);
        self.memory.load_ram(&state.vram);
    }
}
