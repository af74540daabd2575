/// What came of an instruction or a sequence.
///
/// `Jammed` holds the undocumented opcode that stopped the processor (this project's own choice;
/// the MCS6500 Programming Manual leaves such opcodes open).
#[derive(Clone, Copy, PartialEq, Eq)]
pub enum Fetched {
    /// It was done.
    Done,
    /// The opcode is undocumented.
    Jammed(u8),
}
