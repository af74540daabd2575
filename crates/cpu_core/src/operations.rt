ghost use Rattle.std.specs.Prelude.{◌≡◌, ◌/◌, ◌%◌, true};
ghost use Rattle.cpu_alu.specs.Flags.{is_masked};
ghost use Rattle.cpu_alu.specs.Arithmetic.{adc_of, sbc_of};
ghost use Rattle.cpu_core.specs.Kinds.{kind_of};
ghost use Rattle.cpu_core.specs.Operations.{into_a, into_x, into_y, loaded, stored, modified, flag_changed, worked_alone, is_taken, flags_by_program, flags_by_interrupt, pushed, pulled_flags, pulled, masked};

use crate::registers::Registers;
use cpu_alu::Flags;
use cpu_table::Op;

/// How an operation uses the bus: one pattern of accesses for each kind.
#[derive(Clone, Copy)]
pub(crate) enum Kind {
    /// It reads its operand.
    Load,
    /// It writes a register.
    Store,
    /// It reads a byte, and writes it back twice.
    ReadModifyWrite,
    /// It has no operand in memory.
    Implied,
    /// It may go on elsewhere, near by.
    Branch,
    /// It goes on elsewhere.
    Jump,
    /// JSR.
    Call,
    /// RTS.
    Return,
    /// RTI.
    ReturnFromInterrupt,
    /// It pushes a byte.
    Push,
    /// It pulls a byte.
    Pull,
    /// BRK.
    Break,
}

/// The pattern of accesses that an operation follows.
#[tactic(auto, unfolding(crate::specs::Kinds::kind_of))]
#[inline(always)]
pub(crate) fn classify(op: Op) -> Kind
    ensures { result ≡ kind_of op }
{
    match op {
        Op::Adc | Op::And | Op::Bit | Op::Cmp | Op::Cpx | Op::Cpy => Kind::Load,
        Op::Eor | Op::Lda | Op::Ldx | Op::Ldy | Op::Ora | Op::Sbc => Kind::Load,
        Op::Sta | Op::Stx | Op::Sty => Kind::Store,
        Op::Asl | Op::Dec | Op::Inc | Op::Lsr | Op::Rol | Op::Ror => Kind::ReadModifyWrite,
        Op::Bcc | Op::Bcs | Op::Beq | Op::Bmi | Op::Bne | Op::Bpl | Op::Bvc | Op::Bvs =>
            Kind::Branch,
        Op::Jmp => Kind::Jump,
        Op::Jsr => Kind::Call,
        Op::Rts => Kind::Return,
        Op::Rti => Kind::ReturnFromInterrupt,
        Op::Pha | Op::Php => Kind::Push,
        Op::Pla | Op::Plp => Kind::Pull,
        Op::Brk => Kind::Break,
        _ => Kind::Implied,
    }
}

/// Puts a byte into A, with N and Z after it.
#[inline(always)]
fn set_a(r: &mut Registers, byte: u8)
    ensures { r.new ≡ into_a byte r.old }
{
    r.a = byte;
    r.p = cpu_alu::nz(byte, r.p);
}

/// Puts a byte into X, with N and Z after it.
#[inline(always)]
fn set_x(r: &mut Registers, byte: u8)
    ensures { r.new ≡ into_x byte r.old }
{
    r.x = byte;
    r.p = cpu_alu::nz(byte, r.p);
}

/// Puts a byte into Y, with N and Z after it.
#[inline(always)]
fn set_y(r: &mut Registers, byte: u8)
    ensures { r.new ≡ into_y byte r.old }
{
    r.y = byte;
    r.p = cpu_alu::nz(byte, r.p);
}

/// Adds a byte and the carry to A.
#[inline(always)]
fn add(r: &mut Registers, byte: u8)
    ensures { r.new ≡ record r.old { a = (adc_of r.old.a byte r.old.p).0; p = (adc_of r.old.a byte r.old.p).1 } }
{
    let (sum, flags) = cpu_alu::adc(r.a, byte, r.p);
    r.a = sum;
    r.p = flags;
}

/// Subtracts a byte and the borrow from A.
#[inline(always)]
fn subtract(r: &mut Registers, byte: u8)
    ensures { r.new ≡ record r.old { a = (sbc_of r.old.a byte r.old.p).0; p = (sbc_of r.old.a byte r.old.p).1 } }
{
    let (difference, flags) = cpu_alu::sbc(r.a, byte, r.p);
    r.a = difference;
    r.p = flags;
}

/// Does an operation that reads a byte.
#[tactic(auto, unfolding(crate::specs::Operations::loaded))]
#[inline(always)]
pub(crate) fn load(r: &mut Registers, op: Op, byte: u8)
    ensures { r.new ≡ loaded op byte r.old }
{
    match op {
        Op::Adc => add(r, byte),
        Op::And => set_a(r, r.a & byte),
        Op::Bit => r.p = cpu_alu::bit(r.a, byte, r.p),
        Op::Cmp => r.p = cpu_alu::compare(r.a, byte, r.p),
        Op::Cpx => r.p = cpu_alu::compare(r.x, byte, r.p),
        Op::Cpy => r.p = cpu_alu::compare(r.y, byte, r.p),
        Op::Eor => set_a(r, r.a ^ byte),
        Op::Lda => set_a(r, byte),
        Op::Ldx => set_x(r, byte),
        Op::Ldy => set_y(r, byte),
        Op::Ora => set_a(r, r.a | byte),
        Op::Sbc => subtract(r, byte),
        _ => {}
    }
}

/// The byte that a store writes.
#[tactic(auto, unfolding(crate::specs::Operations::stored))]
#[inline(always)]
pub(crate) fn store(r: &Registers, op: Op) -> u8
    ensures { result ≡ stored op r.now }
{
    match op {
        Op::Stx => r.x,
        Op::Sty => r.y,
        _ => r.a,
    }
}

/// The new byte and the new flags of an operation that changes a byte.
#[tactic(auto, unfolding(crate::specs::Operations::modified))]
#[inline(always)]
fn change(op: Op, byte: u8, p: u8) -> (u8, u8)
    requires { p / 16 % 4 ≡ 0 }
    ensures value { result ≡ modified op byte p }
    ensures clear { result.1 / 16 % 4 ≡ 0 }
{
    match op {
        Op::Asl => cpu_alu::asl(byte, p),
        Op::Dec => (byte.wrapping_sub(1), cpu_alu::nz(byte.wrapping_sub(1), p)),
        Op::Inc => (byte.wrapping_add(1), cpu_alu::nz(byte.wrapping_add(1), p)),
        Op::Lsr => cpu_alu::lsr(byte, p),
        Op::Rol => cpu_alu::rol(byte, p),
        Op::Ror => cpu_alu::ror(byte, p),
        _ => (byte, p),
    }
}

/// Does an operation that changes a byte, and gives the new byte.
#[inline(always)]
pub(crate) fn modify(r: &mut Registers, op: Op, byte: u8) -> u8
    ensures value { result ≡ (modified op byte r.old.p).0 }
    ensures flags { r.new ≡ record r.old { p = (modified op byte r.old.p).1 } }
{
    let (changed, flags) = change(op, byte, r.p);
    r.p = flags;
    changed
}

/// The flags after an operation that sets or clears one of them.
#[tactic(auto, unfolding(crate::specs::Operations::flag_changed))]
#[inline(always)]
fn change_flag(flags: Flags, op: Op) -> Flags
    ensures { result ≡ flag_changed op flags }
{
    let mut flags = flags;
    match op {
        Op::Clc => flags.carry = false,
        Op::Cld => flags.decimal = false,
        Op::Cli => flags.interrupt = false,
        Op::Clv => flags.overflow = false,
        Op::Sec => flags.carry = true,
        Op::Sed => flags.decimal = true,
        Op::Sei => flags.interrupt = true,
        _ => {}
    }
    flags
}

/// Does an operation that needs no byte.
#[tactic(auto, unfolding(crate::specs::Operations::worked_alone))]
#[inline(always)]
pub(crate) fn implied(r: &mut Registers, op: Op)
    ensures { r.new ≡ worked_alone op r.old }
{
    match op {
        Op::Clc | Op::Cld | Op::Cli | Op::Clv | Op::Sec | Op::Sed | Op::Sei => {
            r.p = change_flag(Flags::from_byte(r.p), op).to_byte()
        }
        Op::Dex => set_x(r, r.x.wrapping_sub(1)),
        Op::Dey => set_y(r, r.y.wrapping_sub(1)),
        Op::Inx => set_x(r, r.x.wrapping_add(1)),
        Op::Iny => set_y(r, r.y.wrapping_add(1)),
        Op::Tax => set_x(r, r.a),
        Op::Tay => set_y(r, r.a),
        Op::Tsx => set_x(r, r.s),
        Op::Txa => set_a(r, r.x),
        Op::Txs => r.s = r.x,
        Op::Tya => set_a(r, r.y),
        _ => {}
    }
}

/// Whether a branch is taken.
#[tactic(auto, unfolding(crate::specs::Operations::is_taken))]
#[inline(always)]
pub(crate) fn is_taken(r: &Registers, op: Op) -> bool
    ensures { result ≡ is_taken op r.now.p }
{
    let flags = Flags::from_byte(r.p);
    match op {
        Op::Bcc => !flags.carry,
        Op::Bcs => flags.carry,
        Op::Beq => flags.zero,
        Op::Bmi => flags.negative,
        Op::Bne => !flags.zero,
        Op::Bpl => !flags.negative,
        Op::Bvc => !flags.overflow,
        Op::Bvs => flags.overflow,
        _ => false,
    }
}

/// The flags as BRK and PHP push them.
#[tactic(auto, unfolding(crate::specs::Operations::flags_by_program))]
#[inline(always)]
pub(crate) fn flags_by_program(r: &Registers) -> u8
    ensures { result ≡ flags_by_program r.now.p }
{
    r.p + 0x30
}

/// The flags as an interrupt pushes them.
#[tactic(auto, unfolding(crate::specs::Operations::flags_by_interrupt))]
#[inline(always)]
pub(crate) fn flags_by_interrupt(r: &Registers) -> u8
    ensures { result ≡ flags_by_interrupt r.now.p }
{
    r.p + 0x20
}

/// The byte that PHA or PHP pushes.
#[tactic(auto, unfolding(crate::specs::Operations::pushed))]
#[inline(always)]
pub(crate) fn pushed(r: &Registers, op: Op) -> u8
    ensures { result ≡ pushed op r.now }
{
    match op {
        Op::Php => flags_by_program(r),
        _ => r.a,
    }
}

/// The flags that a byte from the stack gives.
#[tactic(auto, unfolding(crate::specs::Operations::pulled_flags))]
#[inline(always)]
pub(crate) fn pulled_flags(byte: u8) -> u8
    ensures value { result ≡ pulled_flags byte }
    ensures clear { result / 16 % 4 ≡ 0 }
{
    Flags::from_byte(byte).to_byte()
}

/// Puts the byte that PLA or PLP has pulled where it belongs.
#[tactic(auto, unfolding(crate::specs::Operations::pulled))]
#[inline(always)]
pub(crate) fn pull(r: &mut Registers, op: Op, byte: u8)
    ensures { r.new ≡ pulled op byte r.old }
{
    match op {
        Op::Plp => r.p = pulled_flags(byte),
        _ => set_a(r, byte),
    }
}

/// The flags with I set.
#[tactic(auto, unfolding(crate::specs::Operations::masked))]
#[inline(always)]
pub(crate) fn masked(p: u8) -> u8
    ensures value { result ≡ masked p }
    ensures set { is_masked result ≡ true }
    ensures clear { result / 16 % 4 ≡ 0 }
{
    let flags = Flags::from_byte(p);
    Flags {
        interrupt: true,
        ..flags
    }
    .to_byte()
}
