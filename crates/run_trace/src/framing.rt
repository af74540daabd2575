//! The frames of a run.
ghost use Rattle.std.specs.Prelude.{◌≡◌, ◌+◌, ◌≤◌, [], length, true, OnOk};
ghost use Rattle.outside_io.specs.Causes.{HasCause};
ghost use Rattle.outside_io.specs.Sink.{Takes};
ghost use Rattle.lockstep_board.specs.Order.{cleared};
ghost use Rattle.lockstep_board.specs.Run.{to_boundary};
ghost use Rattle.run_windows.specs.SyncedMachine.{loan_of, value_of};
ghost use Rattle.frame_list.specs.Frames.{started};
ghost use Rattle.run_trace.specs.BoardFrames.{framed_text};
ghost use Rattle.run_trace.specs.Framing.{after_part, after_run, framed_together, framer_after_plain, framer_after_turn, keeps_marks, part_framed, run_framed_text, CanFrame, HasNumbers};
ghost use Rattle.run_trace.specs.FramingLaws.{framed_in_parts, framed_still};

use arrayvec::ArrayVec;
use board_base::{CLOCK_LIMIT, Trails};
use catchup_engine::{Machine, Tracer, TurnNote};
use frame_list::Frames;
use log_text::write_last;
use outside_io::{Sink, SinkFault};
use run_windows::{SyncedMachine, TurnObserver};
use std::marker::Model;
use tape_ports::Tape;

/// Groups the strokes of a run by the writes that start the generator. The clocks of a turn's
/// writes are kept until the strokes before them are taken.
#[derive(Drop)]
pub(crate) struct Framer {
    frames: Frames,
    marks: ArrayVec<u64, 7>,
}

impl Model for Framer {
    ghost use Rattle.run_trace.specs.Framing.{FramerValue, IsFramer};

    ghost Value = { FramerValue };

    ghost view = { λ f. record { frames = f.frames; marks = f.marks.items } };

    ghost invariant = { λ f. IsFramer (record { frames = f.frames; marks = f.marks.items }) };
}

impl Framer {
    /// Keeps the clocks of a turn's writes that start the generator, and returns whether there are
    /// some.
    #[inline(always)]
    fn keep(&mut self, starts: &[u64]) -> bool
        requires few { length starts.now ≤ 7 }
        ensures marks { self.new ≡ record self.old { marks = starts.now } }
        ensures some { result ≡ keeps_marks self.new }
    {
        self.marks.clear();
        let _kept = self.marks.try_extend_from_slice(starts);
        !self.marks.is_empty()
    }
}

impl Tracer for Framer {
    ghost next = { framer_after_turn };

    ghost has_enough = { keeps_marks };

    ghost plain = { λ _. true };

    ghost after_plain = { framer_after_plain };

    ghost together = { framed_together };

    fn is_plain(_opcode: Option<u8>) -> bool {
        true
    }

    fn plain_turns(&mut self, _clocks: u64, _accesses: u64, starts: &[u64]) -> bool {
        self.keep(starts)
    }

    fn turn(&mut self, note: &TurnNote<'_>, _pc: u16) -> bool {
        self.keep(note.reached.starts())
    }
}

impl TurnObserver for Framer {
    ghost can_follow = { λ f _ limit b. CanFrame f limit b };

    ghost writes = { run_framed_text };

    ghost after_run = { after_run };

    ghost can_take = { λ f _. HasNumbers f };

    ghost part_writes = { part_framed };

    ghost after_part = { after_part };

    fn take_part<O: Sink>(&mut self, trails: &Trails<'_>, out: &mut O) -> Result<(), SinkFault> {
        self.frames.take_marks(&self.marks, trails, out)?;
        self.marks.clear();
        Ok(())
    }

    ghost in_parts = { framed_in_parts };

    ghost stands_still = { framed_still };
}

/// A framer whose first frame begins where the board of a synchronised machine stands.
fn framer_at<M: Machine>(synced: &SyncedMachine<'_, M>) -> Framer
    ensures frames { result.frames ≡ started 0 (value_of synced.now).board.peripherals.clock }
    ensures marks { result.marks ≡ [] }
    ensures clock { (value_of synced.now).board.peripherals.clock ≤ CLOCK_LIMIT + 16 }
{
    let machine = synced.machine();
    machine.lemma_range();
    Framer {
        frames: Frames::new(machine.clock()),
        marks: ArrayVec::new(),
    }
}

/// Runs the board over a tape to the first boundary that isn't before the limit or to an
/// undocumented opcode, and writes its frames: a line for each as it ends, one for the frame that
/// is under way at the end, and the last line of the run. The first frame begins where the board
/// stands, and each write that starts the generator begins the next. After a fault the machine is
/// only to be dropped. It takes no memory.
pub fn run_framed<M: Machine, O: Sink>(
    synced: &mut SyncedMachine<'_, M>,
    tape: &Tape,
    limit: u64,
    out: &mut O,
) -> Result<(), SinkFault>
    requires limit { limit ≤ CLOCK_LIMIT }
    ensures same { loan_of synced.new ≡ loan_of synced.old }
    ensures taken { Takes (O.taken out.old) (O.taken out.new) (framed_text tape.now.entries limit (value_of synced.old).board) result }
    ensures cause { HasCause (O.faults out.old) (O.faults out.new) result }
    ensures board { OnOk result ((value_of synced.new).board ≡ cleared (to_boundary tape.now.entries limit (value_of synced.old).board)) }
{
    let mut framer = framer_at(synced);
    synced.follow(tape, limit, &mut framer, out)?;
    framer.frames.end(out)?;
    let machine = synced.machine();
    let cpu = machine.cpu();
    write_last(machine.clock(), cpu.pc, cpu.jam, out)
}
