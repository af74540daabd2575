//! What reads and writes of the address map do. The devices that one reaches are synced first.
ghost use Rattle.std.specs.Prelude.{◌≡◌, ◌+◌, ◌-◌, ◌*◌, ◌≤◌, ◌<◌, true, length, unwrap_or, slice_index, slice_set, ◌++◌, ◌∷◌, []};
ghost use Rattle.std.specs.Int.{from_bool};
ghost use Rattle.cpu_core.specs.BusCycles.{read_of, write_of};
ghost use Rattle.lockstep_board.specs.Budget.{reaches_device};
ghost use Rattle.board_map.specs.Map.{IsWithin, row_of};
ghost use Rattle.catchup_engine.specs.Lags.{all_lag, lagging_among, lagging_at, with_synced};
ghost use Rattle.catchup_engine.specs.Bus.{Does, Looked, at_clock, is_private};
ghost use Rattle.lockstep_board.specs.Memory.{memory_byte};
ghost use Rattle.avg_device.specs.Tick.{vg_reset};
ghost use Rattle.lockstep_board.specs.Peripherals.{Peripherals, byte_put, byte_read, in0_byte};

use crate::bus::clocking::catch_up_divider;
use crate::bus::{BoardBus, PROGRAM_START};
use crate::devices::Units;
use avg_device::VectorUnit;
use board_base::{RAM_LEN, Record, VECTOR_RAM_LEN};
use board_map::{IN0, Reads, Row, WATCHDOG_START, Writes, row};
use earom_cells::CellUnit;
use irq_watchdog::DividerUnit;
use lockstep_board::{DeviceSet, devices_read, devices_written};
use pokey_chip::SoundUnit;
use rom_image::PROGRAM_ROM_LEN;

impl<S: Units> BoardBus<S> {
    /// Moves the generator to the present clock: one call where it lags, and none where it doesn't.
    #[tactic(auto, using(board_base::proofs::TickLaws::level, crate::proofs::SettledLaws::synced))]
    pub(super) fn sync_vector(&mut self)
        ensures value { self.new ≡ record self.old { lagging = record self.old.lagging { vector = 0 }; until = self.new.until; calls = self.new.calls } }
        ensures until { self.old.until ≤ self.new.until }
        ensures calls { self.new.calls ≤ self.old.calls + self.old.lagging.vector }
        ensures more { self.old.calls ≤ self.new.calls }
        ensures few { self.old.lagging.vector ≤ 1 }
    {
        self.vector.catch_up(&self.memory, self.clock);
    }

    /// Moves POKEY 1 to the present clock: one call where it lags, and none where it doesn't.
    #[tactic(auto, using(board_base::proofs::TickLaws::level, crate::proofs::SettledLaws::synced))]
    pub(super) fn sync_sound1(&mut self)
        ensures value { self.new ≡ record self.old { lagging = record self.old.lagging { sound1 = 0 }; until = self.new.until; calls = self.new.calls } }
        ensures until { self.old.until ≤ self.new.until }
        ensures calls { self.new.calls ≤ self.old.calls + self.old.lagging.sound1 }
        ensures more { self.old.calls ≤ self.new.calls }
        ensures few { self.old.lagging.sound1 ≤ 1 }
    {
        self.sound1.catch_up(self.clock);
    }

    /// Moves POKEY 2 to the present clock: one call where it lags, and none where it doesn't.
    #[tactic(auto, using(board_base::proofs::TickLaws::level, crate::proofs::SettledLaws::synced))]
    pub(super) fn sync_sound2(&mut self)
        ensures value { self.new ≡ record self.old { lagging = record self.old.lagging { sound2 = 0 }; until = self.new.until; calls = self.new.calls } }
        ensures until { self.old.until ≤ self.new.until }
        ensures calls { self.new.calls ≤ self.old.calls + self.old.lagging.sound2 }
        ensures more { self.old.calls ≤ self.new.calls }
        ensures few { self.old.lagging.sound2 ≤ 1 }
    {
        self.sound2.catch_up(self.clock);
    }

    /// Moves the EAROM to the present clock: one call where it lags, and none where it doesn't.
    #[tactic(auto, using(board_base::proofs::TickLaws::level, crate::proofs::SettledLaws::synced))]
    pub(super) fn sync_cells(&mut self)
        ensures value { self.new ≡ record self.old { lagging = record self.old.lagging { cells = 0 }; until = self.new.until; calls = self.new.calls } }
        ensures until { self.old.until ≤ self.new.until }
        ensures calls { self.new.calls ≤ self.old.calls + self.old.lagging.cells }
        ensures more { self.old.calls ≤ self.new.calls }
        ensures few { self.old.lagging.cells ≤ 1 }
    {
        self.cells
            .catch_up(self.clock, |cells, clocks| cells.advance(clocks));
    }

    /// Moves the divider to the present clock: one call where it lags, and none where it doesn't.
    #[tactic(auto, using(board_base::proofs::TickLaws::level, crate::proofs::DividerLaws::lines, crate::proofs::SettledLaws::synced))]
    pub(super) fn sync_divider(&mut self)
        ensures value { self.new ≡ record self.old { lagging = record self.old.lagging { divider = 0 }; until = self.new.until; calls = self.new.calls } }
        ensures until { self.old.until ≤ self.new.until }
        ensures calls { self.new.calls ≤ self.old.calls + self.old.lagging.divider }
        ensures more { self.old.calls ≤ self.new.calls }
        ensures few { self.old.lagging.divider ≤ 1 }
    {
        catch_up_divider(&mut self.divider, self.clock);
    }

    /// Moves these devices to the present clock. One that doesn't lag isn't called.
    #[inline(always)]
    pub(super) fn sync(&mut self, devices: DeviceSet)
        ensures value { self.new ≡ record self.old { lagging = with_synced devices self.old.lagging; until = self.new.until; calls = self.new.calls } }
        ensures until { self.old.until ≤ self.new.until }
        ensures calls { self.new.calls ≤ self.old.calls + lagging_among devices self.old.lagging }
        ensures more { self.old.calls ≤ self.new.calls }
        ensures few { lagging_among devices self.old.lagging ≤ lagging_among devices all_lag }
    {
        if devices.vector {
            self.sync_vector();
        }
        if devices.sound1 {
            self.sync_sound1();
        }
        if devices.sound2 {
            self.sync_sound2();
        }
        if devices.cells {
            self.sync_cells();
        }
        if devices.divider {
            self.sync_divider();
        }
    }

    /// Port IN0, with the generator's halt and the 3 kHz line.
    #[tactic(auto, using(board_base::proofs::TickLaws::level, crate::proofs::SettledLaws::settled))]
    fn read_in0(&self) -> u8
        requires generator { self.now.lagging.vector ≡ 0 }
        requires divider { self.now.lagging.divider ≡ 0 }
        ensures { result ≡ in0_byte self.now.peripherals }
    {
        let halted = if self.vector.unit.halted() { 64 } else { 0 };
        let bit3k = if self.divider.unit.bit3k() { 128 } else { 0 };
        self.ports.in0 + halted + bit3k
    }

    /// VGRST: halts the generator.
    #[tactic(auto, using(board_base::proofs::TickLaws::level, crate::proofs::SettledLaws::settled))]
    pub(super) fn reset_vector(&mut self)
        requires current { self.old.lagging.vector ≡ 0 }
        ensures does { Does self.old self.new (record self.old.peripherals { vg = vg_reset self.old.peripherals.vg }) 1 }
    {
        self.vector.unit.reset();
    }

    /// Sets the output latch, and records it.
    #[inline(never)]
    fn latch(&mut self, value: u8)
        requires room { length self.old.peripherals.written < self.old.rooms.board }
        requires clock_done { 1 ≤ self.old.peripherals.clock }
        ensures { self.new ≡ record self.old {
          peripherals = record self.old.peripherals {
            ports = record self.old.peripherals.ports { out = value };
            written = self.old.peripherals.written ++ Record.Latch (self.old.peripherals.clock - 1) value ∷ [];
          };
        } }
    {
        let clock = self.clock - 1;
        self.ports.out = value;
        self.written.push(Record::Latch { clock, value });
    }

    /// A byte of the RAM.
    #[inline(always)]
    pub fn ram_byte(&self, k: u16) -> u8
        requires { k < RAM_LEN }
        ensures { result ≡ slice_index self.now.peripherals.ram k }
    {
        self.ram[k as usize]
    }

    /// A byte of the program ROM.
    #[inline(always)]
    pub fn program_byte(&self, k: u16) -> u8
        requires { k < PROGRAM_ROM_LEN }
        ensures { result ≡ slice_index self.now.peripherals.program k }
    {
        self.program[k as usize]
    }

    /// The byte at an address in the program ROM.
    #[inline(always)]
    pub fn program_at(&self, addr: u16) -> u8
        requires { PROGRAM_START ≤ addr }
        ensures { result ≡ slice_index self.now.peripherals.program (addr - PROGRAM_START) }
    {
        self.program[usize::from(addr) - usize::from(PROGRAM_START)]
    }

    /// The byte at an address of the RAM or of the program ROM. A read returns it as long as these
    /// two don't change, whatever the devices do.
    #[inline(always)]
    pub fn private_byte(&self, addr: u16) -> u8
        requires { is_private addr ≡ true }
        ensures { (w : Peripherals) → w.ram ≡ self.now.peripherals.ram → w.program ≡ self.now.peripherals.program → result ≡ byte_read addr w }
    {
        if addr >= PROGRAM_START {
            self.program_at(addr)
        } else {
            self.ram_byte(addr)
        }
    }

    /// Changes a byte of the RAM.
    #[inline(always)]
    pub fn put_ram(&mut self, k: u16, value: u8)
        requires { k < RAM_LEN }
        ensures { self.new ≡ record self.old { peripherals = record self.old.peripherals { ram = slice_set self.old.peripherals.ram k value } } }
    {
        self.ram[k as usize] = value;
    }

    /// The byte that a read of an address returns, in the clock that counts as done.
    #[inline(never)]
    pub fn byte(&mut self, addr: u16) -> u8
        ensures byte { result ≡ byte_read addr (at_clock (self.old.peripherals.clock - 1) self.old.peripherals) }
        ensures does { Does self.old self.new self.old.peripherals (2 * from_bool (reaches_device (read_of addr result))) }
        ensures current { lagging_at (row_of addr).reads self.new.lagging ≡ 0 }
    {
        self.byte_by(addr, row(addr))
    }

    /// The byte that a read of IN0 returns, in the clock that counts as done. It does what `byte`
    /// does, without a look at the map.
    #[inline(never)]
    pub fn byte_of_in0(&mut self, addr: u16) -> u8
        requires in0 { addr ≡ IN0 }
        ensures byte { result ≡ byte_read addr (at_clock (self.old.peripherals.clock - 1) self.old.peripherals) }
        ensures does { Does self.old self.new self.old.peripherals (2 * from_bool (reaches_device (read_of addr result))) }
        ensures current { lagging_at (row_of addr).reads self.new.lagging ≡ 0 }
    {
        self.byte_by(addr, row(IN0))
    }

    /// The byte that a read of an address returns, by the address's row of the map.
    #[inline(always)]
    #[tactic(auto, using(board_base::proofs::TickLaws::level, crate::proofs::SettledLaws::settled, crate::proofs::SettledLaws::synced), unfolding(lockstep_board::specs::Peripherals::byte_read, lockstep_board::specs::Budget::reaches_device))]
    pub fn byte_by(&mut self, addr: u16, row: Row) -> u8
        requires row { row ≡ row_of addr }
        requires inside { IsWithin row }
        ensures byte { result ≡ byte_read addr (at_clock (self.old.peripherals.clock - 1) self.old.peripherals) }
        ensures does { Does self.old self.new self.old.peripherals (2 * from_bool (reaches_device (read_of addr result))) }
        ensures current { lagging_at (row_of addr).reads self.new.lagging ≡ 0 }
    {
        self.sync(devices_read(row.reads));
        match row.reads {
            Reads::Ram => self.ram_byte(row.offset),
            Reads::VectorRam => self.memory.byte(row.offset),
            Reads::VectorRom => self.memory.byte(VECTOR_RAM_LEN as u16 + row.offset),
            Reads::ProgramRom => self.program_byte(row.offset),
            Reads::Sound1 => self.sound1.read_register(row.offset as u8),
            Reads::Sound2 => self.sound2.read_register(row.offset as u8),
            Reads::EaromOut => self.cells.unit.output(),
            Reads::In0 => self.read_in0(),
            Reads::In3 => self.ports.in3,
            Reads::In4 => self.ports.in4,
            Reads::Open => 0xFF,
        }
    }

    /// Writes a byte to an address, in the clock that counts as done.
    #[inline(never)]
    pub fn put(&mut self, addr: u16, value: u8)
        requires room { length self.old.peripherals.written < self.old.rooms.board }
        requires clock_done { 1 ≤ self.old.peripherals.clock }
        ensures does { Does self.old self.new (at_clock self.old.peripherals.clock (byte_put addr value (at_clock (self.old.peripherals.clock - 1) self.old.peripherals))) (2 * from_bool (reaches_device (write_of addr value))) }
        ensures few { length self.new.peripherals.written ≤ length self.old.peripherals.written + 1 }
    {
        // a polling loop clears the watchdog: from there on LLVM compares with few rows of the map
        if addr >= WATCHDOG_START {
            self.put_by(addr, row(addr), value);
        } else {
            self.put_by(addr, row(addr), value);
        }
    }

    /// Writes a byte to an address, by the address's row of the map.
    #[inline(always)]
    #[tactic(auto, using(board_base::proofs::TickLaws::level, crate::proofs::SettledLaws::settled, crate::proofs::DividerLaws::latches), unfolding(lockstep_board::specs::Peripherals::byte_put, lockstep_board::specs::Budget::reaches_device))]
    pub fn put_by(&mut self, addr: u16, row: Row, value: u8)
        requires row { row ≡ row_of addr }
        requires inside { IsWithin row }
        requires room { length self.old.peripherals.written < self.old.rooms.board }
        requires clock_done { 1 ≤ self.old.peripherals.clock }
        ensures does { Does self.old self.new (at_clock self.old.peripherals.clock (byte_put addr value (at_clock (self.old.peripherals.clock - 1) self.old.peripherals))) (2 * from_bool (reaches_device (write_of addr value))) }
        ensures few { length self.new.peripherals.written ≤ length self.old.peripherals.written + 1 }
    {
        // the divider's interrupt and watchdog are the same before its ticks and after them
        self.sync(DeviceSet {
            divider: false,
            ..devices_written(row.writes)
        });
        match row.writes {
            Writes::Ram => self.put_ram(row.offset, value),
            Writes::VectorRam => self.memory.put(row.offset, value),
            Writes::Sound1 => self.sound1.write_register(row.offset as u8, value),
            Writes::Sound2 => self.sound2.write_register(row.offset as u8, value),
            Writes::OutputLatch => self.latch(value),
            Writes::Go => self.vector.unit.go(),
            Writes::VgReset => self.reset_vector(),
            Writes::Acknowledge => self.divider.unit.acknowledge(),
            Writes::EaromControl => self.cells.unit.control(value),
            Writes::EaromLatch => self.cells.unit.latch(row.offset as u8, value),
            Writes::WatchdogClear => self.divider.unit.clear(),
            Writes::Ignored => {}
        }
    }

    /// The byte at an address of the RAM, the vector RAM or a ROM.
    #[tactic(auto, unfolding(lockstep_board::specs::Memory::memory_byte))]
    pub fn byte_at(&self, addr: u16) -> Option<u8>
        ensures { result ≡ memory_byte addr self.now.peripherals }
    {
        let row = row(addr);
        match row.reads {
            Reads::Ram => Some(self.ram_byte(row.offset)),
            Reads::VectorRam => Some(self.memory.byte(row.offset)),
            Reads::VectorRom => Some(self.memory.byte(VECTOR_RAM_LEN as u16 + row.offset)),
            Reads::ProgramRom => Some(self.program_byte(row.offset)),
            _ => None,
        }
    }

    /// The byte that stands at an address, or 0 where no memory does.
    #[inline(always)]
    #[tactic(auto, using(crate::proofs::MapLaws::map_rows), unfolding(lockstep_board::specs::Memory::memory_byte))]
    pub fn memory_byte(&self, addr: u16) -> u8
        ensures { result ≡ unwrap_or (memory_byte addr self.now.peripherals) 0 }
    {
        if addr < RAM_LEN as u16 {
            self.ram_byte(addr)
        } else {
            self.byte_at(addr).unwrap_or(0)
        }
    }

    /// Whether the generator is halted: one call where it lags, and none where it doesn't.
    #[tactic(auto, using(board_base::proofs::TickLaws::level, crate::proofs::SettledLaws::settled))]
    pub fn generator_halted(&mut self) -> bool
        ensures halted { result ≡ self.old.peripherals.vg.halted }
        ensures looked { Looked true self.old self.new }
    {
        self.sync_vector();
        self.vector.unit.halted()
    }
}
