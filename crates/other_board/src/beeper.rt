ghost use Rattle.std.specs.Prelude.{◌≡◌, ◌+◌, ◌≤◌, ◌++◌, IfOk, [], length, take, drop};
ghost use Rattle.board_base.specs.Pokey.{pokey_at_power_on};
ghost use Rattle.flat_bus.specs.Flat.{zeros};
ghost use Rattle.pokey_chip.specs.Tick.{pokey_gives, pokey_tick};
ghost use Rattle.other_board.specs.Beeper.{is_pokey, ticked};

use board_base::{CLOCK_END, OutOfMemory, Record, Trail};
use cpu_core::Bus;
use flat_bus::UnloggedBus;
use pokey_chip::{FastPokey, SoundUnit, one_record_a_clock};
use std::alloc::Global;
use std::marker::Model;

/// RAM at all addresses, but for a POKEY at D200 to D20F, which does a clock with each access.
#[derive(Drop)]
pub struct Beeper {
    ram: UnloggedBus,
    pokey: FastPokey,
    clock: u64,
    left: u64,
    trail: Trail,
}

impl Model for Beeper {
    ghost use Rattle.std.specs.Prelude.{◌≤◌, ◌+◌};
    ghost use Rattle.board_base.specs.declared.board.TheConstants.{CLOCK_END};
    ghost use Rattle.other_board.specs.Beeper.{BeeperValue};

    ghost Value = { BeeperValue };

    ghost view = { λ b. record { ram = b.ram; pokey = b.pokey.device; clock = b.clock; left = b.left; levels = b.trail.records } };

    ghost invariant = { λ b. (b.left ≤ b.trail.spare) × (b.clock + b.left ≤ CLOCK_END) };
}

/// Whether an address is one of the POKEY's.
fn reaches_pokey(addr: u16) -> bool
    ensures { result ≡ is_pokey addr }
{
    addr / 16 == 0xD20
}

/// One clock of a POKEY, which makes one record at most.
#[tactic(auto, unfolding(board_base::specs::Ticks::ticks, board_base::specs::Ticks::made))]
fn tick_pokey(pokey: &mut FastPokey, clock: u64, trail: &mut Trail)
    requires room { 1 ≤ trail.old.spare }
    requires clock { clock + 1 ≤ CLOCK_END }
    ensures state { pokey.new.device ≡ pokey_tick pokey.old.device }
    ensures records { trail.new.records ≡ trail.old.records ++ pokey_gives clock pokey.old.device }
    ensures spare { trail.old.spare ≤ trail.new.spare + 1 }
{
    one_record_a_clock();
    pokey.advance(clock, 1, trail);
}

impl Beeper {
    /// A board of zeros with a POKEY at power-on, for as many clocks.
    pub fn new(alloc: Global, clocks: u16) -> Result<Beeper, OutOfMemory>
        ensures { IfOk result (λ b. b ≡ record { ram = zeros 65536; pokey = pokey_at_power_on; clock = 0; left = clocks; levels = [] }) }
    {
        Ok(Beeper {
            ram: UnloggedBus::new(alloc)?,
            pokey: FastPokey::new(),
            clock: 0,
            left: u64::from(clocks),
            trail: Trail::new(alloc, usize::from(clocks))?,
        })
    }

    /// Puts bytes into the RAM without an access.
    pub fn load(&mut self, at: u16, bytes: &[u8])
        requires { at + length bytes.now ≤ 65536 }
        ensures { self.new ≡ record self.old { ram = take at self.old.ram ++ bytes.now ++ drop (at + length bytes.now) self.old.ram } }
    {
        self.ram.load(at, bytes);
    }

    /// The clocks that it may still do.
    pub fn left(&self) -> u64
        ensures { result ≡ self.now.left }
    {
        self.left
    }

    /// The levels of the POKEY so far, a record for each change.
    pub fn levels(&self) -> &[Record]
        ensures { result.now ≡ self.now.levels }
    {
        self.trail.records()
    }

    /// One clock of the POKEY.
    fn tick(&mut self)
        requires { 1 ≤ self.old.left }
        ensures { self.new ≡ ticked self.old }
    {
        tick_pokey(&mut self.pokey, self.clock, &mut self.trail);
        self.clock += 1;
        self.left -= 1;
    }
}

impl Bus for Beeper {
    ghost use Rattle.other_board.specs.Beeper.{BeeperStep};

    type Feed = ();

    ghost step = { λ _ x s t. BeeperStep x s t };

    ghost accepts = { λ _ _. Unit {0} };

    ghost room = { λ s. s.left };

    fn read(&mut self, _feed: &(), addr: u16) -> u8 {
        self.tick();
        if reaches_pokey(addr) {
            self.pokey.read((addr % 16) as u8)
        } else {
            self.ram.read(&(), addr)
        }
    }

    fn write(&mut self, _feed: &(), addr: u16, value: u8) {
        self.tick();
        if reaches_pokey(addr) {
            self.pokey.write((addr % 16) as u8, value);
        } else {
            self.ram.write(&(), addr, value);
        }
    }
}
