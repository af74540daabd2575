use crate::command::Command;
use arrayvec::ArrayVec;
use std::marker::Model;

/// The most breaks, and the most watches, that stand at one time.
pub const STOPS: usize = 16;

/// Where a session stops.
#[derive(Drop)]
pub struct Breakpoints {
    breaks: ArrayVec<u16, STOPS>,
    watches: ArrayVec<u16, STOPS>,
    vg: bool,
}

impl Model for Breakpoints {
    ghost use Rattle.std.specs.Prelude.{◌≤◌, length};
    ghost use Rattle.debug_script.specs.declared.stops.TheConstants.{STOPS};
    ghost use Rattle.debug_script.specs.Breakpoints.{StopsValue};

    ghost Value = { StopsValue };

    ghost view = { λ s. record { breaks = s.breaks.items; watches = s.watches.items; vg = s.vg } };

    ghost invariant = { λ s. (length s.breaks.items ≤ STOPS) × (length s.watches.items ≤ STOPS) };
}

impl Breakpoints {
    ghost use Rattle.std.specs.Prelude.{◌≡◌, ◌≤◌, length, true};
    ghost use Rattle.debug_script.specs.Breakpoints.{are_few, no_stops, stops_after};

    /// No stops.
    pub fn new() -> Breakpoints
        ensures { result ≡ no_stops }
    {
        Breakpoints {
            breaks: ArrayVec::new(),
            watches: ArrayVec::new(),
            vg: false,
        }
    }

    /// Whether a command leaves no more breaks and watches than may stand at one time.
    pub fn has_room(&self, command: Command) -> bool
        ensures { result ≡ are_few (stops_after command self.now) }
    {
        match command {
            Command::Break(_) => !self.breaks.is_full(),
            Command::Watch(_) => !self.watches.is_full(),
            _ => true,
        }
    }

    /// Takes the stop of a command, or forgets all at `clear`; other commands change nothing.
    pub fn note(&mut self, command: Command)
        requires { are_few (stops_after command self.old) ≡ true }
        ensures { self.new ≡ stops_after command self.old }
    {
        match command {
            Command::Break(address) => self.breaks.push(address),
            Command::Watch(address) => self.watches.push(address),
            Command::StopVg => self.vg = true,
            Command::Clear => *self = Breakpoints::new(),
            _ => {}
        }
    }

    /// The addresses to stop at, in the order in which they were given.
    pub fn breaks(&self) -> &[u16]
        ensures breaks { result.now ≡ self.now.breaks }
        ensures few { length result.now ≤ STOPS }
    {
        self.breaks.as_slice()
    }

    /// The addresses of the bytes to watch, in the order in which they were given.
    pub fn watches(&self) -> &[u16]
        ensures watches { result.now ≡ self.now.watches }
        ensures few { length result.now ≤ STOPS }
    {
        self.watches.as_slice()
    }

    /// Whether to stop where the vector generator halts.
    pub fn vg(&self) -> bool
        ensures { result ≡ self.now.vg }
    {
        self.vg
    }
}
