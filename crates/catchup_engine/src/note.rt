//! What a tracer gets of a turn.
ghost use Rattle.std.specs.Prelude.{◌≡◌, ◌+◌, ◌++◌, ◌∷◌, ◌<◌, ◌≤◌, ◌^◌, [], length, if◌then◌else◌};
ghost use Rattle.std.specs.Int.{from_bool};
ghost use Rattle.lockstep_board.specs.Budget.{reaches_device};
ghost use Rattle.catchup_engine.specs.Trace.{made_of};
ghost use Rattle.catchup_engine.specs.Starts.{starts_generator};

use crate::trace::{Access, Trace};
use arrayvec::ArrayVec;
use board_base::Sequence;
use board_map::{Writes, row};
use lockstep_board::{devices_read, devices_written};
use std::marker::Model;
use std::mem;

impl Access {
    /// Whether it reaches a device.
    #[tactic(auto, unfolding(lockstep_board::specs::Budget::reaches_device))]
    pub fn reaches_device(&self) -> bool
        ensures { result ≡ reaches_device (made_of self.now) }
    {
        let row = row(self.addr);
        let reached = if self.write {
            devices_written(row.writes)
        } else {
            devices_read(row.reads)
        };
        !reached.is_empty()
    }

    /// Whether it is a write that starts the generator.
    pub fn starts_generator(&self) -> bool
        ensures { result ≡ starts_generator self.now }
    {
        self.write && matches!(row(self.addr).writes, Writes::Go)
    }
}

/// Of the accesses of some turns the number of those that reach a device, and the clocks of those
/// that start the generator, seven at most.
#[derive(Drop)]
pub struct Reached {
    accesses: u64,
    starts: ArrayVec<u64, 7>,
}

impl Model for Reached {
    ghost use Rattle.catchup_engine.specs.Notes.{ReachedValue};

    ghost Value = { ReachedValue };

    ghost view = { λ r. record { accesses = r.accesses; starts = r.starts.items } };
}

impl Reached {
    ghost use Rattle.std.specs.Prelude.{◌==◌, take};
    ghost use Rattle.catchup_engine.specs.Notes.{nothing_reached, reached_by, with_reached};

    /// Those of no access.
    pub(crate) fn none() -> Reached
        ensures { result ≡ nothing_reached }
    {
        Reached {
            accesses: 0,
            starts: ArrayVec::new(),
        }
    }

    /// Those of a trace.
    pub fn of(trace: &Trace) -> Reached
        ensures { result ≡ reached_by (take trace.now.count trace.now.accesses) }
    {
        let mut reached = Reached::none();
        for access in &trace.accesses[..usize::from(trace.count)] {
            reached.add(
                access.reaches_device(),
                access.starts_generator(),
                access.clock,
            );
        }
        reached
    }

    /// Adds an access: whether it reaches a device, whether it starts the generator, and its clock.
    #[inline(always)]
    pub(crate) fn add(&mut self, reaches: bool, starts: bool, clock: u64)
        requires accesses { self.old.accesses < 2 ^ 63 }
        requires starts { length self.old.starts < 7 }
        ensures { self.new ≡ record { accesses = self.old.accesses + from_bool reaches; starts = if starts then self.old.starts ++ clock ∷ [] else self.old.starts } }
    {
        if reaches {
            self.accesses += 1;
        }
        if starts {
            self.starts.push(clock);
        }
    }

    /// Returns what it has, and has nothing then.
    #[inline(always)]
    pub(crate) fn take(&mut self) -> Reached
        ensures value { result ≡ self.old }
        ensures none { self.new ≡ nothing_reached }
    {
        mem::replace(self, Reached::none())
    }

    /// How many reach a device.
    #[inline(always)]
    pub fn accesses(&self) -> u64
        ensures { result ≡ self.now.accesses }
    {
        self.accesses
    }

    /// The clocks of those that start the generator, in their order.
    #[inline(always)]
    pub fn starts(&self) -> &[u64]
        ensures value { result.now ≡ self.now.starts }
        ensures few { length result.now ≤ 7 }
    {
        self.starts.as_slice()
    }

    /// Whether none starts the generator.
    #[inline(always)]
    pub(crate) fn has_no_starts(&self) -> bool
        ensures { result ≡ (length self.now.starts == 0) }
    {
        self.starts.is_empty()
    }
}

/// What a turn did: its sequence, its opcode, its clocks, and what its accesses reached.
///
/// `opcode` is 0 for an interrupt and for a reset. There are at most 7 clocks.
#[derive(Drop)]
pub struct TurnNote<'a> {
    pub sequence: Sequence,
    pub opcode: u8,
    pub clocks: u8,
    pub reached: &'a Reached,
}

impl<'a> Model for TurnNote<'a> {
    ghost use Rattle.catchup_engine.specs.Notes.{IsNote, NoteValue};

    ghost Value = { NoteValue };

    ghost view = { λ n. record { sequence = n.sequence; opcode = n.opcode; clocks = n.clocks; reached = n.reached.now } };

    ghost invariant = { λ n. IsNote (record { sequence = n.sequence; opcode = n.opcode; clocks = n.clocks; reached = n.reached.now }) };
}

impl<'a> TurnNote<'a> {
    ghost use Rattle.std.specs.Prelude.{take};
    ghost use Rattle.catchup_engine.specs.Notes.{note_of, reached_by};

    /// The note of a trace, whose accesses reached this.
    pub fn of(trace: &Trace, reached: &'a Reached) -> TurnNote<'a>
        requires { reached.now ≡ reached_by (take trace.now.count trace.now.accesses) }
        ensures { result ≡ note_of trace.now }
    {
        TurnNote {
            sequence: trace.sequence,
            opcode: trace.opcode,
            clocks: trace.count,
            reached,
        }
    }
}
