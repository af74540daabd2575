ghost use Rattle.std.specs.Prelude.{◌≡◌, ◌+◌, ◌*◌, ◌%◌, ◌≤◌, ℕ};
ghost use Rattle.cpu_core.specs.Registers.{RegistersValue, stack_address};
ghost use Rattle.cpu_core.specs.BusCycles.{BusCycles, Leads, read_of, write_of};
ghost use Rattle.cpu_core.specs.Patterns.{address_of, indexed, directly_addressed, addressed};

use crate::bus::Bus;
use crate::registers::Registers;
use cpu_table::Mode;

/// The address with this low and this high byte.
#[inline(always)]
pub(crate) fn address(low: u8, high: u8) -> u16
    ensures { result ≡ address_of low high }
{
    u16::from(high) * 256 + u16::from(low)
}

/// Reads the byte at `pc`, and raises `pc`.
#[inline(always)]
pub(crate) fn fetch<B: Bus>(r: &mut Registers, bus: &mut B, feed: &B::Feed) -> u8
    requires accepts { B.accepts feed.now bus.old }
    requires room { 1 ≤ B.room bus.old }
    ensures step { B.step feed.now (read_of r.old.pc result) bus.old bus.new }
    ensures raised { r.new ≡ record r.old { pc = (r.old.pc + 1) % 65536 } }
    ensures accepts { B.accepts feed.now bus.new }
    ensures room { B.room bus.old ≤ B.room bus.new + 1 }
{
    let byte = bus.read(feed, r.pc);
    r.pc = r.pc.wrapping_add(1);
    byte
}

/// Reads a byte that the processor drops. Its contract alone looks at the byte.
#[inline(always)]
pub(crate) fn dummy_read<B: Bus>(bus: &mut B, feed: &B::Feed, addr: u16) -> u8
    requires accepts { B.accepts feed.now bus.old }
    requires room { 1 ≤ B.room bus.old }
    ensures step { B.step feed.now (read_of addr result) bus.old bus.new }
    ensures accepts { B.accepts feed.now bus.new }
    ensures room { B.room bus.old ≤ B.room bus.new + 1 }
{
    bus.read(feed, addr)
}

/// Writes a byte at the stack pointer, and lowers it.
#[inline(always)]
pub(crate) fn push<B: Bus>(r: &mut Registers, byte: u8, bus: &mut B, feed: &B::Feed)
    requires accepts { B.accepts feed.now bus.old }
    requires room { 1 ≤ B.room bus.old }
    ensures step { B.step feed.now (write_of (stack_address r.old) byte) bus.old bus.new }
    ensures lowered { r.new ≡ record r.old { s = (r.old.s + 255) % 256 } }
    ensures accepts { B.accepts feed.now bus.new }
    ensures room { B.room bus.old ≤ B.room bus.new + 1 }
{
    bus.write(feed, r.stack_address(), byte);
    r.s = r.s.wrapping_sub(1);
}

/// Raises the stack pointer, and reads the byte there.
#[inline(always)]
pub(crate) fn pull<B: Bus>(r: &mut Registers, bus: &mut B, feed: &B::Feed) -> u8
    requires accepts { B.accepts feed.now bus.old }
    requires room { 1 ≤ B.room bus.old }
    ensures step { B.step feed.now (read_of (stack_address r.new) result) bus.old bus.new }
    ensures raised { r.new ≡ record r.old { s = (r.old.s + 1) % 256 } }
    ensures accepts { B.accepts feed.now bus.new }
    ensures room { B.room bus.old ≤ B.room bus.new + 1 }
{
    r.s = r.s.wrapping_add(1);
    bus.read(feed, r.stack_address())
}

/// Adds an index to an address, with the dropped read where the page is crossed, or `always`.
#[inline(always)]
pub(crate) fn add_index<B: Bus>(
    low: u8,
    high: u8,
    index: u8,
    always: bool,
    bus: &mut B,
    feed: &B::Feed,
) -> u16
    requires accepts { B.accepts feed.now bus.old }
    requires room { 1 ≤ B.room bus.old }
    ensures leads { (k : ℕ → BusCycles) → Leads (B.step feed.now) (indexed low high index always k) bus.old (k result) bus.new }
    ensures accepts { B.accepts feed.now bus.new }
    ensures room { B.room bus.old ≤ B.room bus.new + 1 }
{
    let (uncorrected, carry) = low.overflowing_add(index);
    if always || carry {
        dummy_read(bus, feed, address(uncorrected, high));
    }
    address(low, high).wrapping_add(u16::from(index))
}

/// Finds the address of the operand, in the modes without a pointer.
#[inline(always)]
pub(crate) fn find_direct<B: Bus>(
    r: &mut Registers,
    mode: Mode,
    always: bool,
    bus: &mut B,
    feed: &B::Feed,
) -> u16
    requires accepts { B.accepts feed.now bus.old }
    requires room { 3 ≤ B.room bus.old }
    ensures leads { (k : RegistersValue → ℕ → BusCycles) → Leads (B.step feed.now) (directly_addressed mode always r.old k) bus.old (k r.new result) bus.new }
    ensures accepts { B.accepts feed.now bus.new }
    ensures room { B.room bus.old ≤ B.room bus.new + 3 }
{
    match mode {
        Mode::Immediate => {
            let at = r.pc;
            r.pc = r.pc.wrapping_add(1);
            at
        }
        Mode::ZeroPage => u16::from(fetch(r, bus, feed)),
        Mode::ZeroPageX => {
            let base = fetch(r, bus, feed);
            dummy_read(bus, feed, u16::from(base));
            u16::from(base.wrapping_add(r.x))
        }
        Mode::ZeroPageY => {
            let base = fetch(r, bus, feed);
            dummy_read(bus, feed, u16::from(base));
            u16::from(base.wrapping_add(r.y))
        }
        Mode::Absolute => {
            let low = fetch(r, bus, feed);
            let high = fetch(r, bus, feed);
            address(low, high)
        }
        Mode::AbsoluteX => {
            let low = fetch(r, bus, feed);
            let high = fetch(r, bus, feed);
            add_index(low, high, r.x, always, bus, feed)
        }
        Mode::AbsoluteY => {
            let low = fetch(r, bus, feed);
            let high = fetch(r, bus, feed);
            add_index(low, high, r.y, always, bus, feed)
        }
        _ => 0,
    }
}

/// Finds the address of the operand.
#[inline(always)]
pub(crate) fn find<B: Bus>(
    r: &mut Registers,
    mode: Mode,
    always: bool,
    bus: &mut B,
    feed: &B::Feed,
) -> u16
    requires accepts { B.accepts feed.now bus.old }
    requires room { 4 ≤ B.room bus.old }
    ensures leads { (k : RegistersValue → ℕ → BusCycles) → Leads (B.step feed.now) (addressed mode always r.old k) bus.old (k r.new result) bus.new }
    ensures accepts { B.accepts feed.now bus.new }
    ensures room { B.room bus.old ≤ B.room bus.new + 4 }
{
    match mode {
        Mode::IndirectX => {
            let base = fetch(r, bus, feed);
            dummy_read(bus, feed, u16::from(base));
            let pointer = base.wrapping_add(r.x);
            let low = bus.read(feed, u16::from(pointer));
            let high = bus.read(feed, u16::from(pointer.wrapping_add(1)));
            address(low, high)
        }
        Mode::IndirectY => {
            let base = fetch(r, bus, feed);
            let low = bus.read(feed, u16::from(base));
            let high = bus.read(feed, u16::from(base.wrapping_add(1)));
            add_index(low, high, r.y, always, bus, feed)
        }
        _ => find_direct(r, mode, always, bus, feed),
    }
}
