/// So many items from an address on.
#[derive(Clone, Copy, PartialEq, Eq)]
pub struct Span {
    pub from: u16,
    pub count: u16,
}

/// A command of a script. Addresses are the processor's.
#[derive(Clone, Copy, PartialEq, Eq)]
pub enum Command {
    /// Stops where pc is this at a boundary.
    Break(u16),
    /// Stops where this byte has changed since the boundary before.
    Watch(u16),
    /// Stops where the vector generator has halted since the boundary before.
    StopVg,
    /// Forgets the stops.
    Clear,
    /// Turns until a stop.
    Go,
    /// So many turns.
    Step(u64),
    /// Turns until this clock.
    Until(u64),
    /// Shows the clock and the registers.
    Regs,
    /// Shows the ports and the devices.
    Dev,
    /// Shows bytes.
    Mem(Span),
    /// Shows instructions of the processor.
    Dis(Span),
    /// Shows instructions of the vector generator.
    Vdis(Span),
}
