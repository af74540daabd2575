//! The profile of a run.
ghost use Rattle.std.specs.Prelude.{◌≡◌, ◌≤◌, [], false, OnOk};
ghost use Rattle.outside_io.specs.Causes.{HasCause};
ghost use Rattle.outside_io.specs.Sink.{Takes};
ghost use Rattle.lockstep_board.specs.Order.{cleared};
ghost use Rattle.lockstep_board.specs.Run.{to_boundary};
ghost use Rattle.run_windows.specs.SyncedMachine.{loan_of, value_of};
ghost use Rattle.run_trace.specs.BoardProfile.{no_profile, profiled_text};
ghost use Rattle.cycle_profile.specs.Turns.{stays};
ghost use Rattle.run_trace.specs.Profiling.{after_run, profiler_after_plain, profiler_after_turn};
ghost use Rattle.run_trace.specs.ProfilingLaws.{profiled_in_parts, profiled_still, profiled_together};

use board_base::{CLOCK_LIMIT, Trails};
use catchup_engine::{Machine, Tracer, TurnNote};
use cycle_profile::{Profile, stays};
use log_text::write_last;
use outside_io::{Sink, SinkFault};
use run_windows::{SyncedMachine, TurnObserver};
use tape_ports::Tape;

/// Counts what the turns of a run take.
#[derive(Drop)]
pub(crate) struct Profiler {
    profile: Profile,
}

impl Tracer for Profiler {
    ghost next = { profiler_after_turn };

    ghost has_enough = { λ _. false };

    ghost plain = { stays };

    ghost after_plain = { profiler_after_plain };

    ghost together = { profiled_together };

    #[inline(always)]
    fn is_plain(opcode: Option<u8>) -> bool {
        match opcode {
            Some(opcode) => stays(opcode),
            None => false,
        }
    }

    fn plain_turns(&mut self, clocks: u64, accesses: u64, _starts: &[u64]) -> bool {
        self.profile.charge(clocks, accesses);
        false
    }

    fn turn(&mut self, note: &TurnNote<'_>, pc: u16) -> bool {
        self.profile.take_note(note, pc);
        false
    }
}

impl TurnObserver for Profiler {
    ghost can_follow = { λ _ _ _ _. Unit };

    ghost writes = { λ _ _ _ _. [] };

    ghost after_run = { after_run };

    ghost can_take = { λ _ _. Unit };

    ghost part_writes = { λ _ _. [] };

    ghost after_part = { λ p _. p };

    fn take_part<O: Sink>(&mut self, _trails: &Trails<'_>, _out: &mut O) -> Result<(), SinkFault> {
        Ok(())
    }

    ghost in_parts = { profiled_in_parts };

    ghost stands_still = { profiled_still };
}

/// Runs the board over a tape to the first boundary that isn't before the limit or to an
/// undocumented opcode, counts its turns in the profile, and then writes it and the last line of
/// the run. The profile is a new one, of the address at which the processor stands. After a fault
/// the machine is only to be dropped. It takes no memory.
pub fn run_profiled<M: Machine, O: Sink>(
    synced: &mut SyncedMachine<'_, M>,
    tape: &Tape,
    limit: u64,
    profile: Profile,
    out: &mut O,
) -> Result<(), SinkFault>
    requires limit { limit ≤ CLOCK_LIMIT }
    requires fresh { profile ≡ no_profile (value_of synced.old).board.cpu.pc }
    ensures same { loan_of synced.new ≡ loan_of synced.old }
    ensures taken { Takes (O.taken out.old) (O.taken out.new) (profiled_text tape.now.entries limit (value_of synced.old).board) result }
    ensures cause { HasCause (O.faults out.old) (O.faults out.new) result }
    ensures board { OnOk result ((value_of synced.new).board ≡ cleared (to_boundary tape.now.entries limit (value_of synced.old).board)) }
{
    let mut profiler = Profiler { profile };
    synced.follow(tape, limit, &mut profiler, out)?;
    profiler.profile.write(out)?;
    let machine = synced.machine();
    let cpu = machine.cpu();
    write_last(machine.clock(), cpu.pc, cpu.jam, out)
}
