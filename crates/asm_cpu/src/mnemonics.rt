ghost use Rattle.std.specs.Prelude.{◌≡◌};
ghost use Rattle.asm_cpu.specs.Mnemonics.{name_of, op_of};

use cpu_table::Op;

/// The operations, in the order of `Op`.
static OPERATIONS: [Op; 56] = [
    Op::Adc,
    Op::And,
    Op::Asl,
    Op::Bcc,
    Op::Bcs,
    Op::Beq,
    Op::Bit,
    Op::Bmi,
    Op::Bne,
    Op::Bpl,
    Op::Brk,
    Op::Bvc,
    Op::Bvs,
    Op::Clc,
    Op::Cld,
    Op::Cli,
    Op::Clv,
    Op::Cmp,
    Op::Cpx,
    Op::Cpy,
    Op::Dec,
    Op::Dex,
    Op::Dey,
    Op::Eor,
    Op::Inc,
    Op::Inx,
    Op::Iny,
    Op::Jmp,
    Op::Jsr,
    Op::Lda,
    Op::Ldx,
    Op::Ldy,
    Op::Lsr,
    Op::Nop,
    Op::Ora,
    Op::Pha,
    Op::Php,
    Op::Pla,
    Op::Plp,
    Op::Rol,
    Op::Ror,
    Op::Rti,
    Op::Rts,
    Op::Sbc,
    Op::Sec,
    Op::Sed,
    Op::Sei,
    Op::Sta,
    Op::Stx,
    Op::Sty,
    Op::Tax,
    Op::Tay,
    Op::Tsx,
    Op::Txa,
    Op::Txs,
    Op::Tya,
];

/// The names of the operations, in the same order.
static NAMES: [&str; 56] = [
    "adc", "and", "asl", "bcc", "bcs", "beq", "bit", "bmi", "bne", "bpl", "brk", "bvc", "bvs",
    "clc", "cld", "cli", "clv", "cmp", "cpx", "cpy", "dec", "dex", "dey", "eor", "inc", "inx",
    "iny", "jmp", "jsr", "lda", "ldx", "ldy", "lsr", "nop", "ora", "pha", "php", "pla", "plp",
    "rol", "ror", "rti", "rts", "sbc", "sec", "sed", "sei", "sta", "stx", "sty", "tax", "tay",
    "tsx", "txa", "txs", "tya",
];

/// The name of an operation.
pub fn mnemonic(op: Op) -> &'static str
    ensures { result.now ≡ name_of op }
{
    NAMES[op as usize]
}

/// The operation that a word names, in letters of either case.
pub(crate) fn read_op(word: &[u8]) -> Option<Op>
    ensures { result ≡ op_of word.now }
{
    OPERATIONS
        .iter()
        .find(|op| word.eq_ignore_ascii_case(mnemonic(**op).as_bytes()))
        .copied()
}
