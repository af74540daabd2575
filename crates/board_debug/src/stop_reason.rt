/// Why a command of a session has stopped.
#[derive(Clone, Copy, Debug, PartialEq, Eq)]
pub enum StopReason {
    /// An undocumented opcode has stopped the processor.
    Jam(u8),
    /// The tape has ended.
    End,
    /// The processor stands at a break.
    Break(u16),
    /// A watched byte has changed.
    Watch(u16),
    /// The vector generator has halted.
    Vg,
    /// The turns that were asked for are made.
    Step,
    /// The clock that was asked for has come.
    Until,
}
