ghost use Rattle.std.specs.Prelude.{◌≡◌};

use crate::bus::Bus;
use board_base::CpuState;
use std::marker::Model;

/// What comes next in a sequence: the address of a read, the address and the byte of a write, or
/// the processor after its end.
#[derive(Clone, Copy, PartialEq, Eq)]
pub enum Next {
    /// A read of an address.
    Read(u16),
    /// A write to an address, and its byte.
    Write(u16, u8),
    /// No access: the processor after the sequence.
    End(CpuState),
}

/// A bus that gives the bytes of earlier accesses again, and keeps the first access past them.
#[derive(Drop)]
pub(crate) struct Replay<'a> {
    given: &'a [u8],
    due: Option<Next>,
}

impl<'a> Model for Replay<'a> {
    ghost use Rattle.cpu_core.specs.Replays.{ReplayValue};

    ghost Value = { ReplayValue };

    ghost view = { λ r. record { given = r.given.now; due = r.due } };
}

impl<'a> Replay<'a> {
    ghost use Rattle.std.specs.Prelude.{None};
    ghost use Rattle.cpu_core.specs.Replays.{Takes};

    /// A replay of these bytes.
    pub fn new(given: &'a [u8]) -> Replay<'a>
        ensures { result ≡ record { given = given.now; due = None } }
    {
        Replay { given, due: None }
    }

    /// The first access past the bytes given, if it came.
    pub fn due(&self) -> Option<Next>
        ensures { result ≡ self.now.due }
    {
        self.due
    }

    /// Takes the next byte given. An access past them is kept if it is the first, and its byte is
    /// 0.
    fn take(&mut self, access: Next) -> u8
        ensures { Takes self.old.due self.old.given access result self.new }
    {
        if self.due.is_some() {
            return 0;
        }
        match self.given.split_first() {
            None => {
                self.due = Some(access);
                0
            }
            Some((byte, rest)) => {
                self.given = rest;
                *byte
            }
        }
    }
}

impl Bus for Replay<'_> {
    ghost use Rattle.cpu_core.specs.Replays.{Replays};

    type Feed = ();

    ghost step = { λ _ x s t. Replays x s t };

    ghost accepts = { λ _ _. Unit {0} };

    ghost room = { λ _. 7 };

    fn read(&mut self, _feed: &(), addr: u16) -> u8 {
        self.take(Next::Read(addr))
    }

    fn write(&mut self, _feed: &(), addr: u16, value: u8) {
        self.take(Next::Write(addr, value));
    }
}
