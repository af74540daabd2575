/// What the log states of one clock.
///
/// `Stroke` goes from the beam before to the beam after, with the colour 0 to 7 and the intensity
/// 1 to 15; `Levels` has the four levels 0 to 15 of a POKEY; `clock` is the clock in which it came.
#[derive(Clone, Copy, Debug, PartialEq, Eq)]
pub enum Record {
    /// A vector was drawn.
    Stroke {
        clock: u64,
        x0: i32,
        y0: i32,
        x1: i32,
        y1: i32,
        colour: u8,
        intensity: u8,
    },
    /// The levels of a POKEY changed.
    Levels {
        clock: u64,
        l1: u8,
        l2: u8,
        l3: u8,
        l4: u8,
    },
    /// The output latch was written.
    Latch {
        clock: u64,
        value: u8,
    },
    /// A watchdog reset was taken.
    WatchdogReset {
        clock: u64,
    },
}

impl Record {
    ghost use Rattle.std.specs.Prelude.{◌≡◌};
    ghost use Rattle.board_base.specs.Records.{clock_of};

    /// The clock in which it came.
    pub fn clock(&self) -> u64
        ensures { result ≡ clock_of self.now }
    {
        match *self {
            Record::Stroke { clock, .. }
            | Record::Levels { clock, .. }
            | Record::Latch { clock, .. }
            | Record::WatchdogReset { clock } => clock,
        }
    }
}
