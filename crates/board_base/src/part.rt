/// A part of the board that makes records, in the order in which they come within a clock.
#[derive(Clone, Copy, Debug, PartialEq, Eq)]
pub enum Part {
    /// It makes strokes.
    Generator,
    /// It makes levels.
    Pokey1,
    /// It makes levels.
    Pokey2,
    /// It makes latch writes and watchdog resets.
    Board,
}
