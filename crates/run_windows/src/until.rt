/// How far a run goes: to this clock, inside a sequence too, or to the first boundary that isn't
/// before it.
#[derive(Clone, Copy, Debug, PartialEq, Eq)]
pub enum Until {
    /// To a clock.
    Clock(u64),
    /// To a boundary.
    Boundary(u64),
}
