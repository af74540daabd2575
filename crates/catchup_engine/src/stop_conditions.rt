//! What ends a run at a boundary, beside its limit.
ghost use Rattle.std.specs.Prelude.{◌≡◌, ◌==◌, is_some};
ghost use Rattle.std.specs.List.{list_any};
ghost use Rattle.catchup_engine.specs.Bus.{Looked};
ghost use Rattle.catchup_engine.specs.Runs.{over_bus};
ghost use Rattle.catchup_engine.specs.StopConditions.{ConditionsValue, asks_generator, has_changed, is_other, stops_at};

use crate::bus::BoardBus;
use crate::devices::Units;
use cpu_core::Cpu;
use std::marker::Model;

/// A byte to watch: an address of the RAM, the vector RAM or a ROM, and what stood there. Where no
/// memory stands, that is 0.
#[derive(Clone, Copy, Default)]
pub struct WatchedByte {
    pub address: u16,
    pub value: u8,
}

/// What ends a run at a boundary.
pub(crate) trait Breaks {
    /// What ends it.
    ghost conditions: { Self → ConditionsValue };

    /// Whether pc at this address does.
    fn has(&self, pc: u16) -> bool
        ensures { result ≡ list_any (λ address. address == pc) (conditions self.now).addresses };

    /// Whether a byte does that isn't what it was.
    fn has_changed<S: Units>(&self, bus: &BoardBus<S>) -> bool
        ensures { result ≡ list_any (has_changed bus.now.peripherals) (conditions self.now).bytes };

    /// Whether the generator was halted, where a change of that does.
    fn halted(&self) -> Option<bool>
        ensures { result ≡ (conditions self.now).halted };
}

/// Nothing ends it.
#[derive(Drop)]
pub(crate) struct Nowhere;

impl Breaks for Nowhere {
    ghost use Rattle.catchup_engine.specs.StopConditions.{no_conditions};

    ghost conditions = { λ _. no_conditions };

    #[inline(always)]
    fn has(&self, _pc: u16) -> bool {
        false
    }

    #[inline(always)]
    fn has_changed<S: Units>(&self, _bus: &BoardBus<S>) -> bool {
        false
    }

    #[inline(always)]
    fn halted(&self) -> Option<bool> {
        None
    }
}

/// These addresses, with a mark for the lowest byte of each, since most boundaries are at no mark.
#[derive(Drop)]
struct BreakList<'a> {
    addresses: &'a [u16],
    marks: [bool; 256],
}

impl<'a> Model for BreakList<'a> {
    ghost use Rattle.std.specs.Prelude.{ℕ, List};
    ghost use Rattle.catchup_engine.specs.BreakMarks.{AreMarked};

    ghost Value = { List ℕ };

    ghost view = { λ breaks. breaks.addresses.now };

    ghost invariant = { λ breaks. AreMarked breaks.marks breaks.addresses.now };
}

impl<'a> BreakList<'a> {
    /// The list of these addresses.
    fn new(addresses: &'a [u16]) -> BreakList<'a>
        ensures { result ≡ addresses.now }
    {
        let mut marks = [false; 256];
        for address in addresses {
            marks[usize::from(*address % 256)] = true;
        }
        BreakList { addresses, marks }
    }

    /// Whether this is one of them.
    #[inline(always)]
    fn has(&self, pc: u16) -> bool
        ensures { result ≡ list_any (λ address. address == pc) self.now }
    {
        self.marks[usize::from(pc % 256)] && self.addresses.contains(&pc)
    }
}

/// What ends a run at a boundary before its limit: pc at an address, a byte that has changed, or a
/// generator that has halted or started to draw.
#[derive(Drop)]
pub struct StopConditions<'a> {
    breaks: BreakList<'a>,
    bytes: &'a [WatchedByte],
    halted: Option<bool>,
}

impl<'a> Model for StopConditions<'a> {
    ghost use Rattle.catchup_engine.specs.StopConditions.{ConditionsValue};

    ghost Value = { ConditionsValue };

    ghost view = { λ stops. record { addresses = stops.breaks; bytes = stops.bytes.now; halted = stops.halted } };
}

impl<'a> StopConditions<'a> {
    /// These addresses and bytes, and, where a change of that ends a run, whether the generator was
    /// halted.
    pub fn new(
        addresses: &'a [u16],
        bytes: &'a [WatchedByte],
        halted: Option<bool>,
    ) -> StopConditions<'a>
        ensures { result ≡ record { addresses = addresses.now; bytes = bytes.now; halted = halted } }
    {
        StopConditions {
            breaks: BreakList::new(addresses),
            bytes,
            halted,
        }
    }
}

impl<'a> Breaks for StopConditions<'a> {
    ghost conditions = { λ stops. stops };

    #[inline(always)]
    fn has(&self, pc: u16) -> bool {
        self.breaks.has(pc)
    }

    #[inline(always)]
    fn has_changed<S: Units>(&self, bus: &BoardBus<S>) -> bool {
        self.bytes
            .iter()
            .any(|byte| bus.memory_byte(byte.address) != byte.value)
    }

    #[inline(always)]
    fn halted(&self) -> Option<bool> {
        self.halted
    }
}

/// Whether the generator isn't as it was, where it is asked.
#[inline(always)]
fn is_other<S: Units>(bus: &mut BoardBus<S>, was: Option<bool>) -> bool
    ensures value { result ≡ is_other was bus.old.peripherals.vg.halted }
    ensures looked { Looked (is_some was) bus.old bus.new }
{
    match was {
        None => false,
        Some(true) => !bus.generator_halted(),
        Some(false) => bus.generator_halted(),
    }
}

/// Whether a run ends at this boundary, where its limit hasn't come.
#[inline(always)]
pub(crate) fn is_stop<S: Units, B: Breaks>(cpu: &Cpu, bus: &mut BoardBus<S>, breaks: &B) -> bool
    ensures value { result ≡ stops_at (B.conditions breaks.now) (over_bus cpu.now bus.old) }
    ensures looked { Looked (asks_generator (B.conditions breaks.now)) bus.old bus.new }
{
    breaks.has(cpu.state().pc) || breaks.has_changed(bus) || is_other(bus, breaks.halted())
}
