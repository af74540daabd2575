/// The 56 operations, by their names in the MCS6500 Programming Manual.
#[derive(Clone, Copy, PartialEq, Eq)]
pub enum Op {
    /// Adds memory and the carry to A.
    Adc,
    /// And of A and memory.
    And,
    /// Shifts left by one bit.
    Asl,
    /// Branches where the carry is clear.
    Bcc,
    /// Branches where the carry is set.
    Bcs,
    /// Branches on a result of zero.
    Beq,
    /// Tests bits of memory with A.
    Bit,
    /// Branches on a negative result.
    Bmi,
    /// Branches on a result that isn't zero.
    Bne,
    /// Branches on a result that isn't negative.
    Bpl,
    /// Forces a break.
    Brk,
    /// Branches where the overflow flag is clear.
    Bvc,
    /// Branches where the overflow flag is set.
    Bvs,
    /// Clears the carry.
    Clc,
    /// Clears the decimal mode.
    Cld,
    /// Clears the interrupt disable flag.
    Cli,
    /// Clears the overflow flag.
    Clv,
    /// Compares memory and A.
    Cmp,
    /// Compares memory and X.
    Cpx,
    /// Compares memory and Y.
    Cpy,
    /// Takes one from memory.
    Dec,
    /// Takes one from X.
    Dex,
    /// Takes one from Y.
    Dey,
    /// Exclusive or of A and memory.
    Eor,
    /// Adds one to memory.
    Inc,
    /// Adds one to X.
    Inx,
    /// Adds one to Y.
    Iny,
    /// Jumps to an address.
    Jmp,
    /// Jumps to a subroutine, and saves where it returns to.
    Jsr,
    /// Loads A.
    Lda,
    /// Loads X.
    Ldx,
    /// Loads Y.
    Ldy,
    /// Shifts right by one bit.
    Lsr,
    /// Does nothing.
    Nop,
    /// Or of A and memory.
    Ora,
    /// Pushes A.
    Pha,
    /// Pushes the flags.
    Php,
    /// Pulls A.
    Pla,
    /// Pulls the flags.
    Plp,
    /// Rotates left by one bit, through the carry.
    Rol,
    /// Rotates right by one bit, through the carry.
    Ror,
    /// Returns from an interrupt.
    Rti,
    /// Returns from a subroutine.
    Rts,
    /// Takes memory and the borrow from A.
    Sbc,
    /// Sets the carry.
    Sec,
    /// Sets the decimal mode.
    Sed,
    /// Sets the interrupt disable flag.
    Sei,
    /// Stores A.
    Sta,
    /// Stores X.
    Stx,
    /// Stores Y.
    Sty,
    /// Copies A to X.
    Tax,
    /// Copies A to Y.
    Tay,
    /// Copies S to X.
    Tsx,
    /// Copies X to A.
    Txa,
    /// Copies X to S.
    Txs,
    /// Copies Y to A.
    Tya,
}

/// The 13 addressing modes. `IndirectX` is `(zp,X)` and `IndirectY` is `(zp),Y`.
#[derive(Clone, Copy, PartialEq, Eq)]
pub enum Mode {
    /// No operand.
    Implied,
    /// `A`.
    Accumulator,
    /// `#nn`: the byte after the opcode.
    Immediate,
    /// `nn`: an address below 0100.
    ZeroPage,
    /// `nn,X`, which wraps within the zero page.
    ZeroPageX,
    /// `nn,Y`, which wraps within the zero page.
    ZeroPageY,
    /// `nnnn`.
    Absolute,
    /// `nnnn,X`.
    AbsoluteX,
    /// `nnnn,Y`.
    AbsoluteY,
    /// `(nnnn)`, of a jump alone.
    Indirect,
    /// `(nn,X)`: the pointer is at nn + X.
    IndirectX,
    /// `(nn),Y`: Y is added to the pointer at nn.
    IndirectY,
    /// The target of a branch, from the next address on.
    Relative,
}
