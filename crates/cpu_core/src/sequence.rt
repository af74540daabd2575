ghost use Rattle.std.specs.Prelude.{◌≡◌, ◌+◌, ◌≤◌, None, IfSome, MatchOption};
ghost use Rattle.cpu_table.specs.Opcodes.{row_of};
ghost use Rattle.cpu_core.specs.Registers.{RegistersValue, at_boundary, jammed_on};
ghost use Rattle.board_base.specs.declared.cpu.Sequence.{Sequence};
ghost use Rattle.cpu_core.specs.BusCycles.{Performs, AtLeast, AtMost};
ghost use Rattle.cpu_core.specs.Kinds.{kind_of};
ghost use Rattle.cpu_core.specs.Patterns.{executed_by, instruction_cycles, is_accumulator, row_cycles};
ghost use Rattle.cpu_core.specs.Sequences.{cycles_of, Runs};
ghost use Rattle.cpu_core.specs.Places.{BeginsWith, Fetches};

use crate::bus::Bus;
use crate::operations::{self, Kind};
use crate::patterns;
use crate::registers::Registers;
use board_base::{CpuState, Sequence};
use cpu_table::{Mode, Op};

/// The arm of the opcodes that have none of their own. It is no documented opcode.
const ANY_OTHER: u8 = 0xFF;

/// Whether the operand is A.
fn is_accumulator(mode: Mode) -> bool
    ensures { result ≡ is_accumulator mode }
{
    matches!(mode, Mode::Accumulator)
}

/// Executes what follows the opcode of a documented instruction. Each `ARM` has a function of its
/// own, which is called once: so LLVM puts it there.
#[inline(always)]
fn execute<const ARM: u8, B: Bus>(
    r: &mut Registers,
    op: Op,
    mode: Mode,
    bus: &mut B,
    feed: &B::Feed,
)
    requires accepts { B.accepts feed.now bus.old }
    requires room { 6 ≤ B.room bus.old }
    ensures performs { Performs (B.step feed.now) (executed_by (kind_of op) op mode r.old) bus.old bus.new (at_boundary r.new) }
    ensures accepts { B.accepts feed.now bus.new }
    ensures room { B.room bus.old ≤ B.room bus.new + 6 }
{
    match operations::classify(op) {
        Kind::Load => patterns::load(r, op, mode, bus, feed),
        Kind::Store => patterns::store(r, op, mode, bus, feed),
        Kind::ReadModifyWrite if is_accumulator(mode) => patterns::modify_a(r, op, bus, feed),
        Kind::ReadModifyWrite => patterns::read_modify_write(r, op, mode, bus, feed),
        Kind::Implied => patterns::implied(r, op, bus, feed),
        Kind::Branch => patterns::branch(r, op, bus, feed),
        Kind::Jump => patterns::jump(r, mode, bus, feed),
        Kind::Call => patterns::jsr(r, bus, feed),
        Kind::Return => patterns::rts(r, bus, feed),
        Kind::ReturnFromInterrupt => patterns::rti(r, bus, feed),
        Kind::Push => patterns::push_register(r, op, bus, feed),
        Kind::Pull => patterns::pull_register(r, op, bus, feed),
        Kind::Break => patterns::brk(r, bus, feed),
    }
}

/// Executes an opcode after its fetch, from the registers at the fetch, and gives the processor
/// after it. An undocumented opcode jams it.
#[inline(always)]
fn execute_opcode<const ARM: u8, B: Bus>(
    r: &Registers,
    opcode: u8,
    bus: &mut B,
    feed: &B::Feed,
) -> CpuState
    requires accepts { B.accepts feed.now bus.old }
    requires room { 6 ≤ B.room bus.old }
    ensures performs { Performs (B.step feed.now) (row_cycles r.now opcode (row_of opcode)) bus.old bus.new result }
    ensures outcome { MatchOption (row_of opcode) ((bus.new ≡ bus.old) × (result ≡ jammed_on r.now opcode)) (λ _. result.jam ≡ None) }
    ensures boundary { result.mid ≡ None }
    ensures accepts { B.accepts feed.now bus.new }
    ensures room { B.room bus.old ≤ B.room bus.new + 6 }
{
    let Some((op, mode)) = cpu_table::entry(opcode) else {
        return r.jammed_on(opcode);
    };
    let mut after = Registers {
        pc: r.pc.wrapping_add(1),
        ..*r
    };
    execute::<ARM, B>(&mut after, op, mode, bus, feed);
    after.at_boundary()
}

/// Executes one opcode after its fetch. It has no hint: where it has one caller, LLVM makes it for
/// its opcode alone, and puts it there.
fn execute_one<const OPCODE: u8, B: Bus>(r: &Registers, bus: &mut B, feed: &B::Feed) -> CpuState
    requires accepts { B.accepts feed.now bus.old }
    requires room { 6 ≤ B.room bus.old }
    ensures performs { Performs (B.step feed.now) (row_cycles r.now OPCODE (row_of OPCODE)) bus.old bus.new result }
    ensures outcome { MatchOption (row_of OPCODE) ((bus.new ≡ bus.old) × (result ≡ jammed_on r.now OPCODE)) (λ _. result.jam ≡ None) }
    ensures boundary { result.mid ≡ None }
    ensures accepts { B.accepts feed.now bus.new }
    ensures room { B.room bus.old ≤ B.room bus.new + 6 }
{
    execute_opcode::<OPCODE, B>(r, OPCODE, bus, feed)
}

/// Executes an opcode after its fetch: the commonest ones by one jump, each to code of its own.
#[inline(always)]
fn execute_by_jump<B: Bus>(r: &Registers, opcode: u8, bus: &mut B, feed: &B::Feed) -> CpuState
    requires accepts { B.accepts feed.now bus.old }
    requires room { 6 ≤ B.room bus.old }
    ensures performs { Performs (B.step feed.now) (row_cycles r.now opcode (row_of opcode)) bus.old bus.new result }
    ensures outcome { MatchOption (row_of opcode) ((bus.new ≡ bus.old) × (result ≡ jammed_on r.now opcode)) (λ _. result.jam ≡ None) }
    ensures boundary { result.mid ≡ None }
    ensures accepts { B.accepts feed.now bus.new }
    ensures room { B.room bus.old ≤ B.room bus.new + 6 }
{
    match opcode {
        0x0A => execute_one::<0x0A, B>(r, bus, feed),
        0x10 => execute_one::<0x10, B>(r, bus, feed),
        0x18 => execute_one::<0x18, B>(r, bus, feed),
        0x20 => execute_one::<0x20, B>(r, bus, feed),
        0x24 => execute_one::<0x24, B>(r, bus, feed),
        0x29 => execute_one::<0x29, B>(r, bus, feed),
        0x2C => execute_one::<0x2C, B>(r, bus, feed),
        0x30 => execute_one::<0x30, B>(r, bus, feed),
        0x38 => execute_one::<0x38, B>(r, bus, feed),
        0x48 => execute_one::<0x48, B>(r, bus, feed),
        0x4A => execute_one::<0x4A, B>(r, bus, feed),
        0x4C => execute_one::<0x4C, B>(r, bus, feed),
        0x60 => execute_one::<0x60, B>(r, bus, feed),
        0x65 => execute_one::<0x65, B>(r, bus, feed),
        0x68 => execute_one::<0x68, B>(r, bus, feed),
        0x69 => execute_one::<0x69, B>(r, bus, feed),
        0x84 => execute_one::<0x84, B>(r, bus, feed),
        0x85 => execute_one::<0x85, B>(r, bus, feed),
        0x86 => execute_one::<0x86, B>(r, bus, feed),
        0x88 => execute_one::<0x88, B>(r, bus, feed),
        0x8A => execute_one::<0x8A, B>(r, bus, feed),
        0x8D => execute_one::<0x8D, B>(r, bus, feed),
        0x90 => execute_one::<0x90, B>(r, bus, feed),
        0x91 => execute_one::<0x91, B>(r, bus, feed),
        0x95 => execute_one::<0x95, B>(r, bus, feed),
        0x98 => execute_one::<0x98, B>(r, bus, feed),
        0x9D => execute_one::<0x9D, B>(r, bus, feed),
        0xA0 => execute_one::<0xA0, B>(r, bus, feed),
        0xA2 => execute_one::<0xA2, B>(r, bus, feed),
        0xA4 => execute_one::<0xA4, B>(r, bus, feed),
        0xA5 => execute_one::<0xA5, B>(r, bus, feed),
        0xA6 => execute_one::<0xA6, B>(r, bus, feed),
        0xA8 => execute_one::<0xA8, B>(r, bus, feed),
        0xA9 => execute_one::<0xA9, B>(r, bus, feed),
        0xAA => execute_one::<0xAA, B>(r, bus, feed),
        0xAD => execute_one::<0xAD, B>(r, bus, feed),
        0xB0 => execute_one::<0xB0, B>(r, bus, feed),
        0xB1 => execute_one::<0xB1, B>(r, bus, feed),
        0xB9 => execute_one::<0xB9, B>(r, bus, feed),
        0xBD => execute_one::<0xBD, B>(r, bus, feed),
        0xC0 => execute_one::<0xC0, B>(r, bus, feed),
        0xC5 => execute_one::<0xC5, B>(r, bus, feed),
        0xC6 => execute_one::<0xC6, B>(r, bus, feed),
        0xC8 => execute_one::<0xC8, B>(r, bus, feed),
        0xC9 => execute_one::<0xC9, B>(r, bus, feed),
        0xCA => execute_one::<0xCA, B>(r, bus, feed),
        0xD0 => execute_one::<0xD0, B>(r, bus, feed),
        0xE0 => execute_one::<0xE0, B>(r, bus, feed),
        0xE6 => execute_one::<0xE6, B>(r, bus, feed),
        0xE8 => execute_one::<0xE8, B>(r, bus, feed),
        0xF0 => execute_one::<0xF0, B>(r, bus, feed),
        _ => execute_opcode::<ANY_OTHER, B>(r, opcode, bus, feed),
    }
}

/// Does an instruction, and gives the processor after it. An undocumented opcode jams it.
#[inline(always)]
fn perform_instruction<B: Bus>(r: &Registers, bus: &mut B, feed: &B::Feed) -> CpuState
    requires accepts { B.accepts feed.now bus.old }
    requires room { 7 ≤ B.room bus.old }
    ensures performs { Performs (B.step feed.now) (instruction_cycles r.now) bus.old bus.new result }
    ensures fetches { Fetches (B.step feed.now) (at_boundary r.now) bus.old bus.new result }
    ensures boundary { result.mid ≡ None }
    ensures undocumented { IfSome result.jam (λ o. row_of o ≡ None) }
    ensures accepts { B.accepts feed.now bus.new }
    ensures room { B.room bus.old ≤ B.room bus.new + 7 }
{
    let opcode = bus.read(feed, r.pc);
    execute_opcode::<ANY_OTHER, B>(r, opcode, bus, feed)
}

/// The same by one jump, for the loop of a run.
#[tactic(auto, using(crate::proofs::BusCycleLemmas::runs_of))]
#[inline(always)]
pub(crate) fn perform_by_jump<B: Bus>(r: &Registers, bus: &mut B, feed: &B::Feed) -> CpuState
    requires accepts { B.accepts feed.now bus.old }
    requires room { 7 ≤ B.room bus.old }
    ensures runs { Runs (B.step feed.now) r.now Sequence.Opcode bus.old bus.new result }
    ensures fetches { Fetches (B.step feed.now) (at_boundary r.now) bus.old bus.new result }
    ensures boundary { result.mid ≡ None }
    ensures undocumented { IfSome result.jam (λ o. row_of o ≡ None) }
    ensures accepts { B.accepts feed.now bus.new }
    ensures room { B.room bus.old ≤ B.room bus.new + 7 }
{
    let opcode = bus.read(feed, r.pc);
    execute_by_jump(r, opcode, bus, feed)
}

/// Does a whole sequence, and gives the processor after it.
#[tactic(auto, using(crate::proofs::BusCycleLemmas::runs_of))]
#[inline(always)]
pub(crate) fn perform<B: Bus>(
    start: Registers,
    sequence: Sequence,
    bus: &mut B,
    feed: &B::Feed,
) -> CpuState
    requires accepts { B.accepts feed.now bus.old }
    requires room { 7 ≤ B.room bus.old }
    ensures performs { Performs (B.step feed.now) (cycles_of start sequence) bus.old bus.new result }
    ensures runs { Runs (B.step feed.now) start sequence bus.old bus.new result }
    ensures begins { BeginsWith (B.step feed.now) sequence (at_boundary start) bus.old bus.new result }
    ensures boundary { result.mid ≡ None }
    ensures undocumented { IfSome result.jam (λ o. row_of o ≡ None) }
    ensures accepts { B.accepts feed.now bus.new }
    ensures room { B.room bus.old ≤ B.room bus.new + 7 }
{
    let mut r = start;
    match sequence {
        Sequence::Opcode => perform_instruction(&r, bus, feed),
        Sequence::Interrupt => {
            patterns::interrupt(&mut r, bus, feed);
            r.at_boundary()
        }
        Sequence::Reset => {
            patterns::reset(&mut r, bus, feed);
            r.at_boundary()
        }
    }
}

/// The least and the greatest number of clocks of an instruction or a sequence. A jam alone has
/// fewer (MCS6500 Programming Manual, appendix B).
#[tactic(auto, using(crate::proofs::LengthLemmas::lengths))]
pub fn clock_range() -> (u8, u8)
    ensures least { (r : RegistersValue) (q : Sequence) → AtLeast result.0 (cycles_of r q) }
    ensures most { (r : RegistersValue) (q : Sequence) → AtMost result.1 (cycles_of r q) }
    ensures values { result ≡ (2, 7) }
{
    (2, 7)
}
