ghost use Rattle.std.specs.Prelude.{◌≡◌, ◌+◌, ◌%◌, ◌<◌, ◌≤◌};
ghost use Rattle.cpu_core.specs.Registers.{at_boundary};
ghost use Rattle.cpu_core.specs.BusCycles.{Performs};
ghost use Rattle.cpu_core.specs.Patterns.{load_cycles, store_cycles, modify_a_cycles, read_modify_write_cycles, implied_cycles, branch_cycles, jump_cycles, jsr_cycles, rts_cycles, rti_cycles, push_cycles, pull_cycles, brk_cycles, vectored, interrupted, interrupt_cycles, reset_cycles, landed, target_of};

use crate::addressing::{address, dummy_read, fetch, find, find_direct, pull, push};
use crate::bus::Bus;
use crate::operations;
use crate::registers::Registers;
use cpu_table::{Mode, Op};

/// Reads the operand and works on the registers.
#[inline(always)]
pub(crate) fn load<B: Bus>(r: &mut Registers, op: Op, mode: Mode, bus: &mut B, feed: &B::Feed)
    requires accepts { B.accepts feed.now bus.old }
    requires room { 5 ≤ B.room bus.old }
    ensures performs { Performs (B.step feed.now) (load_cycles op mode r.old) bus.old bus.new (at_boundary r.new) }
    ensures accepts { B.accepts feed.now bus.new }
    ensures room { B.room bus.old ≤ B.room bus.new + 5 }
{
    let address = find(r, mode, false, bus, feed);
    let byte = bus.read(feed, address);
    operations::load(r, op, byte);
}

/// Writes a register.
#[inline(always)]
pub(crate) fn store<B: Bus>(r: &mut Registers, op: Op, mode: Mode, bus: &mut B, feed: &B::Feed)
    requires accepts { B.accepts feed.now bus.old }
    requires room { 5 ≤ B.room bus.old }
    ensures performs { Performs (B.step feed.now) (store_cycles op mode r.old) bus.old bus.new (at_boundary r.new) }
    ensures accepts { B.accepts feed.now bus.new }
    ensures room { B.room bus.old ≤ B.room bus.new + 5 }
{
    let address = find(r, mode, true, bus, feed);
    bus.write(feed, address, operations::store(r, op));
}

/// Changes A.
#[inline(always)]
pub(crate) fn modify_a<B: Bus>(r: &mut Registers, op: Op, bus: &mut B, feed: &B::Feed)
    requires accepts { B.accepts feed.now bus.old }
    requires room { 1 ≤ B.room bus.old }
    ensures performs { Performs (B.step feed.now) (modify_a_cycles op r.old) bus.old bus.new (at_boundary r.new) }
    ensures accepts { B.accepts feed.now bus.new }
    ensures room { B.room bus.old ≤ B.room bus.new + 1 }
{
    dummy_read(bus, feed, r.pc);
    let byte = r.a;
    r.a = operations::modify(r, op, byte);
}

/// Changes a byte of memory.
#[inline(always)]
pub(crate) fn read_modify_write<B: Bus>(
    r: &mut Registers,
    op: Op,
    mode: Mode,
    bus: &mut B,
    feed: &B::Feed,
)
    requires accepts { B.accepts feed.now bus.old }
    requires room { 6 ≤ B.room bus.old }
    ensures performs { Performs (B.step feed.now) (read_modify_write_cycles op mode r.old) bus.old bus.new (at_boundary r.new) }
    ensures accepts { B.accepts feed.now bus.new }
    ensures room { B.room bus.old ≤ B.room bus.new + 6 }
{
    let address = find_direct(r, mode, true, bus, feed);
    let byte = bus.read(feed, address);
    bus.write(feed, address, byte);
    let changed = operations::modify(r, op, byte);
    bus.write(feed, address, changed);
}

/// Works on the registers alone.
#[inline(always)]
pub(crate) fn implied<B: Bus>(r: &mut Registers, op: Op, bus: &mut B, feed: &B::Feed)
    requires accepts { B.accepts feed.now bus.old }
    requires room { 1 ≤ B.room bus.old }
    ensures performs { Performs (B.step feed.now) (implied_cycles op r.old) bus.old bus.new (at_boundary r.new) }
    ensures accepts { B.accepts feed.now bus.new }
    ensures room { B.room bus.old ≤ B.room bus.new + 1 }
{
    dummy_read(bus, feed, r.pc);
    operations::implied(r, op);
}

/// The address that a branch goes to from this `pc`.
#[inline(always)]
fn target(pc: u16, offset: u8) -> u16
    ensures { result ≡ target_of pc offset }
{
    let extension = if offset < 128 { 0 } else { 0xFF00 };
    pc.wrapping_add(u16::from(offset)).wrapping_add(extension)
}

/// Jumps, with a dropped read more where the page changes.
#[inline(always)]
fn land<B: Bus>(r: &mut Registers, to: u16, bus: &mut B, feed: &B::Feed)
    requires accepts { B.accepts feed.now bus.old }
    requires room { 1 ≤ B.room bus.old }
    ensures performs { Performs (B.step feed.now) (landed r.old to) bus.old bus.new (at_boundary r.new) }
    ensures accepts { B.accepts feed.now bus.new }
    ensures room { B.room bus.old ≤ B.room bus.new + 1 }
{
    if to / 256 != r.pc / 256 {
        dummy_read(bus, feed, r.pc / 256 * 256 + to % 256);
    }
    r.pc = to;
}

/// Reads the offset, and jumps where the branch is taken.
#[inline(always)]
pub(crate) fn branch<B: Bus>(r: &mut Registers, op: Op, bus: &mut B, feed: &B::Feed)
    requires accepts { B.accepts feed.now bus.old }
    requires room { 3 ≤ B.room bus.old }
    ensures performs { Performs (B.step feed.now) (branch_cycles op r.old) bus.old bus.new (at_boundary r.new) }
    ensures accepts { B.accepts feed.now bus.new }
    ensures room { B.room bus.old ≤ B.room bus.new + 3 }
{
    let offset = fetch(r, bus, feed);
    if operations::is_taken(r, op) {
        dummy_read(bus, feed, r.pc);
        let to = target(r.pc, offset);
        land(r, to, bus, feed);
    }
}

/// JMP.
#[inline(always)]
pub(crate) fn jump<B: Bus>(r: &mut Registers, mode: Mode, bus: &mut B, feed: &B::Feed)
    requires accepts { B.accepts feed.now bus.old }
    requires room { 4 ≤ B.room bus.old }
    ensures performs { Performs (B.step feed.now) (jump_cycles mode r.old) bus.old bus.new (at_boundary r.new) }
    ensures accepts { B.accepts feed.now bus.new }
    ensures room { B.room bus.old ≤ B.room bus.new + 4 }
{
    if let Mode::Indirect = mode {
        let low = fetch(r, bus, feed);
        let high = fetch(r, bus, feed);
        let target_low = bus.read(feed, address(low, high));
        let target_high = bus.read(feed, address(low.wrapping_add(1), high));
        r.pc = address(target_low, target_high);
    } else {
        let low = fetch(r, bus, feed);
        let high = bus.read(feed, r.pc);
        r.pc = address(low, high);
    }
}

/// JSR.
#[inline(always)]
pub(crate) fn jsr<B: Bus>(r: &mut Registers, bus: &mut B, feed: &B::Feed)
    requires accepts { B.accepts feed.now bus.old }
    requires room { 5 ≤ B.room bus.old }
    ensures performs { Performs (B.step feed.now) (jsr_cycles r.old) bus.old bus.new (at_boundary r.new) }
    ensures accepts { B.accepts feed.now bus.new }
    ensures room { B.room bus.old ≤ B.room bus.new + 5 }
{
    let low = fetch(r, bus, feed);
    dummy_read(bus, feed, r.stack_address());
    let [pc_low, pc_high] = r.pc.to_le_bytes();
    push(r, pc_high, bus, feed);
    push(r, pc_low, bus, feed);
    let high = bus.read(feed, r.pc);
    r.pc = address(low, high);
}

/// RTS.
#[inline(always)]
pub(crate) fn rts<B: Bus>(r: &mut Registers, bus: &mut B, feed: &B::Feed)
    requires accepts { B.accepts feed.now bus.old }
    requires room { 5 ≤ B.room bus.old }
    ensures performs { Performs (B.step feed.now) (rts_cycles r.old) bus.old bus.new (at_boundary r.new) }
    ensures accepts { B.accepts feed.now bus.new }
    ensures room { B.room bus.old ≤ B.room bus.new + 5 }
{
    dummy_read(bus, feed, r.pc);
    dummy_read(bus, feed, r.stack_address());
    let low = pull(r, bus, feed);
    let high = pull(r, bus, feed);
    r.pc = address(low, high);
    dummy_read(bus, feed, r.pc);
    r.pc = r.pc.wrapping_add(1);
}

/// RTI.
#[inline(always)]
pub(crate) fn rti<B: Bus>(r: &mut Registers, bus: &mut B, feed: &B::Feed)
    requires accepts { B.accepts feed.now bus.old }
    requires room { 5 ≤ B.room bus.old }
    ensures performs { Performs (B.step feed.now) (rti_cycles r.old) bus.old bus.new (at_boundary r.new) }
    ensures accepts { B.accepts feed.now bus.new }
    ensures room { B.room bus.old ≤ B.room bus.new + 5 }
{
    dummy_read(bus, feed, r.pc);
    dummy_read(bus, feed, r.stack_address());
    let flags = pull(r, bus, feed);
    r.p = operations::pulled_flags(flags);
    let low = pull(r, bus, feed);
    let high = pull(r, bus, feed);
    r.pc = address(low, high);
}

/// PHA and PHP.
#[inline(always)]
pub(crate) fn push_register<B: Bus>(r: &mut Registers, op: Op, bus: &mut B, feed: &B::Feed)
    requires accepts { B.accepts feed.now bus.old }
    requires room { 2 ≤ B.room bus.old }
    ensures performs { Performs (B.step feed.now) (push_cycles op r.old) bus.old bus.new (at_boundary r.new) }
    ensures accepts { B.accepts feed.now bus.new }
    ensures room { B.room bus.old ≤ B.room bus.new + 2 }
{
    dummy_read(bus, feed, r.pc);
    let byte = operations::pushed(r, op);
    push(r, byte, bus, feed);
}

/// PLA and PLP.
#[inline(always)]
pub(crate) fn pull_register<B: Bus>(r: &mut Registers, op: Op, bus: &mut B, feed: &B::Feed)
    requires accepts { B.accepts feed.now bus.old }
    requires room { 3 ≤ B.room bus.old }
    ensures performs { Performs (B.step feed.now) (pull_cycles op r.old) bus.old bus.new (at_boundary r.new) }
    ensures accepts { B.accepts feed.now bus.new }
    ensures room { B.room bus.old ≤ B.room bus.new + 3 }
{
    dummy_read(bus, feed, r.pc);
    dummy_read(bus, feed, r.stack_address());
    let byte = pull(r, bus, feed);
    operations::pull(r, op, byte);
}

/// Jumps by the vector at an address below FFFF.
#[inline(always)]
fn jump_by_vector<B: Bus>(r: &mut Registers, at: u16, bus: &mut B, feed: &B::Feed)
    requires at { at < 65535 }
    requires accepts { B.accepts feed.now bus.old }
    requires room { 2 ≤ B.room bus.old }
    ensures performs { Performs (B.step feed.now) (vectored at r.old) bus.old bus.new (at_boundary r.new) }
    ensures accepts { B.accepts feed.now bus.new }
    ensures room { B.room bus.old ≤ B.room bus.new + 2 }
{
    let low = bus.read(feed, at);
    let high = bus.read(feed, at + 1);
    r.pc = address(low, high);
}

/// Pushes `pc` and these flags, masks interrupts, and jumps by the vector at FFFE.
#[inline(always)]
fn interrupt_with<B: Bus>(r: &mut Registers, flags: u8, bus: &mut B, feed: &B::Feed)
    requires accepts { B.accepts feed.now bus.old }
    requires room { 5 ≤ B.room bus.old }
    ensures performs { Performs (B.step feed.now) (interrupted flags r.old) bus.old bus.new (at_boundary r.new) }
    ensures accepts { B.accepts feed.now bus.new }
    ensures room { B.room bus.old ≤ B.room bus.new + 5 }
{
    let [pc_low, pc_high] = r.pc.to_le_bytes();
    push(r, pc_high, bus, feed);
    push(r, pc_low, bus, feed);
    push(r, flags, bus, feed);
    r.p = operations::masked(r.p);
    jump_by_vector(r, 0xFFFE, bus, feed);
}

/// BRK.
#[inline(always)]
pub(crate) fn brk<B: Bus>(r: &mut Registers, bus: &mut B, feed: &B::Feed)
    requires accepts { B.accepts feed.now bus.old }
    requires room { 6 ≤ B.room bus.old }
    ensures performs { Performs (B.step feed.now) (brk_cycles r.old) bus.old bus.new (at_boundary r.new) }
    ensures accepts { B.accepts feed.now bus.new }
    ensures room { B.room bus.old ≤ B.room bus.new + 6 }
{
    fetch(r, bus, feed);
    let flags = operations::flags_by_program(r);
    interrupt_with(r, flags, bus, feed);
}

/// The interrupt.
#[inline(always)]
pub(crate) fn interrupt<B: Bus>(r: &mut Registers, bus: &mut B, feed: &B::Feed)
    requires accepts { B.accepts feed.now bus.old }
    requires room { 7 ≤ B.room bus.old }
    ensures performs { Performs (B.step feed.now) (interrupt_cycles r.old) bus.old bus.new (at_boundary r.new) }
    ensures accepts { B.accepts feed.now bus.new }
    ensures room { B.room bus.old ≤ B.room bus.new + 7 }
{
    dummy_read(bus, feed, r.pc);
    dummy_read(bus, feed, r.pc);
    let flags = operations::flags_by_interrupt(r);
    interrupt_with(r, flags, bus, feed);
}

/// The reset, from registers where `s` is lowered and interrupts are masked.
#[inline(always)]
pub(crate) fn reset<B: Bus>(r: &mut Registers, bus: &mut B, feed: &B::Feed)
    requires accepts { B.accepts feed.now bus.old }
    requires room { 7 ≤ B.room bus.old }
    ensures performs { Performs (B.step feed.now) (reset_cycles r.old) bus.old bus.new (at_boundary r.new) }
    ensures accepts { B.accepts feed.now bus.new }
    ensures room { B.room bus.old ≤ B.room bus.new + 7 }
{
    dummy_read(bus, feed, r.pc);
    dummy_read(bus, feed, r.pc);
    dummy_read(bus, feed, r.pc);
    dummy_read(bus, feed, r.pc);
    dummy_read(bus, feed, r.pc);
    jump_by_vector(r, 0xFFFC, bus, feed);
}
