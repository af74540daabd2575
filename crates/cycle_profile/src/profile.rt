//! The routines that are under way, and the counts of each address.
ghost use Rattle.std.specs.Prelude.{◌≡◌};

use crate::counts::Counts;
use crate::turn::{Turn, turn_by};
use crate::write::write_table;
use arrayvec::ArrayVec;
use board_base::OutOfMemory;
use catchup_engine::{Reached, Trace, TurnNote};
use outside_io::{Sink, SinkFault};
use std::alloc::Global;
use std::marker::Model;

/// The addresses that a routine can have.
pub const ADDRESSES: usize = 65_536;

/// The most routines that are kept on the list.
pub const LONGEST_LIST: usize = 128;

/// The list of routines under way, the counts of each address, and the clocks of all sequences. It
/// takes no memory once it is made.
#[derive(Drop)]
pub struct Profile {
    routines: ArrayVec<u16, LONGEST_LIST>,
    counts: Vec<Counts>,
    clocks: u64,
}

impl Model for Profile {
    ghost use Rattle.cycle_profile.specs.Profile.{IsProfile, ProfileValue};

    ghost Value = { ProfileValue };

    ghost view = { λ p. record { routines = p.routines.items; counts = p.counts.items; clocks = p.clocks } };

    ghost invariant = { λ p. IsProfile (record { routines = p.routines.items; counts = p.counts.items; clocks = p.clocks }) };
}

impl Profile {
    ghost use Rattle.std.specs.Prelude.{◌≡◌, [], ◌∷◌, ◌++◌, IfOk, replicate};
    ghost use Rattle.outside_io.specs.Causes.{HasCause};
    ghost use Rattle.outside_io.specs.Sink.{Takes};
    ghost use Rattle.catchup_engine.specs.Notes.{note_of};
    ghost use Rattle.catchup_engine.specs.Trace.{TraceValue};
    ghost use Rattle.cycle_profile.specs.Counts.{more_entered, no_counts};
    ghost use Rattle.cycle_profile.specs.Profile.{after, after_turn, changed, charged, last_of, newest, returned};
    ghost use Rattle.cycle_profile.specs.Text.{profile_text};

    /// A profile of no sequence, which has the routine at this address alone. It takes the memory
    /// of the whole table.
    pub fn new(alloc: Global, pc: u16) -> Result<Profile, OutOfMemory>
        ensures { IfOk result (λ p. p ≡ record { routines = pc ∷ []; counts = replicate ADDRESSES no_counts; clocks = 0 }) }
    {
        let counts = vec![in alloc; Counts::none(); ADDRESSES]?;
        let mut routines = ArrayVec::new();
        routines.push(pc);
        Ok(Profile {
            routines,
            counts,
            clocks: 0,
        })
    }

    /// Charges the sequence of the trace to the last routine of the list, and changes the list:
    /// JSR, BRK and an interrupt add the address `pc` after the sequence, of at most 128 the
    /// newest are kept, RTS and RTI take the last one away where there are more, and a reset leaves
    /// `pc` alone. A trace of no access changes nothing.
    pub fn take(&mut self, trace: &Trace, pc: u16)
        ensures { self.new ≡ after self.old trace.now pc }
    {
        let reached = Reached::of(trace);
        self.take_note(&TurnNote::of(trace, &reached), pc);
    }

    /// Does what `take` does, by the note of a trace.
    #[inline(always)]
    pub fn take_note(&mut self, note: &TurnNote<'_>, pc: u16)
        ensures { (trace : TraceValue) → note.now ≡ note_of trace → self.new ≡ after self.old trace pc }
    {
        if note.clocks == 0 {
            return;
        }
        self.charge(u64::from(note.clocks), note.reached.accesses());
        self.turn(turn_by(note.sequence, note.opcode), pc);
    }

    /// Changes the list, and counts an entry where a routine is entered.
    #[inline(always)]
    fn turn(&mut self, turn: Turn, pc: u16)
        ensures { self.new ≡ after_turn turn pc self.old }
    {
        match turn {
            Turn::Call => self.call(pc),
            Turn::Return => self.leave(),
            Turn::Restart => self.restart(pc),
            Turn::Stay => {}
        }
    }

    /// Writes the lines of the addresses with clocks, in rising order, and then that of all clocks.
    #[tactic(auto, unfolding(crate::specs::Text::profile_text))]
    pub fn write<O: Sink>(&self, out: &mut O) -> Result<(), SinkFault>
        ensures taken { Takes (O.taken out.old) (O.taken out.new) (profile_text self.now) result }
        ensures cause { HasCause (O.faults out.old) (O.faults out.new) result }
    {
        write_table(&self.counts, self.clocks, out)
    }

    /// The address of the last routine of the list.
    fn last(&self) -> u16
        ensures { result ≡ last_of self.now.routines }
    {
        self.routines.as_slice()[self.routines.len() - 1]
    }

    /// Charges so many clocks and device accesses to the last routine of the list.
    #[inline(always)]
    pub fn charge(&mut self, clocks: u64, accesses: u64)
        ensures { self.new ≡ charged self.old clocks accesses }
    {
        let routine = usize::from(self.last());
        self.counts[routine] = self.counts[routine].taken(clocks, accesses);
        self.clocks = self.clocks.saturating_add(clocks);
    }

    /// Counts an entry of the routine at this address.
    fn enter(&mut self, pc: u16)
        ensures { self.new ≡ record self.old { counts = changed more_entered pc self.old.counts } }
    {
        let routine = usize::from(pc);
        self.counts[routine] = self.counts[routine].entered();
    }

    /// A routine at this address is called.
    fn call(&mut self, pc: u16)
        ensures { self.new ≡ record self.old { routines = newest (self.old.routines ++ pc ∷ []); counts = changed more_entered pc self.old.counts } }
    {
        if self.routines.is_full() {
            self.routines.remove(0);
        }
        self.routines.push(pc);
        self.enter(pc);
    }

    /// The last routine returns, where it isn't the only one.
    fn leave(&mut self)
        ensures { self.new ≡ record self.old { routines = returned self.old.routines } }
    {
        if self.routines.len() > 1 {
            self.routines.pop();
        }
    }

    /// The program begins anew at this address.
    fn restart(&mut self, pc: u16)
        ensures { self.new ≡ record self.old { routines = pc ∷ []; counts = changed more_entered pc self.old.counts } }
    {
        self.routines = ArrayVec::new();
        self.routines.push(pc);
        self.enter(pc);
    }
}
