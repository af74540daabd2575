ghost use Rattle.std.specs.Prelude.{◌≡◌, ◌+◌, ◌≤◌, OnOk};
ghost use Rattle.outside_io.specs.Causes.{HasCause};
ghost use Rattle.outside_io.specs.Sink.{Takes};
ghost use Rattle.lockstep_board.specs.Order.{cleared};
ghost use Rattle.lockstep_board.specs.Run.{to_boundary};
ghost use Rattle.run_windows.specs.SyncedMachine.{loan_of, value_of};
ghost use Rattle.sound_pcm.specs.Mixing.{AreLevels};
ghost use Rattle.sound_pcm.specs.declared.mixer.TheConstants.{MAX_PER};
ghost use Rattle.run_samples.specs.BoardSamples.{sampled_bytes, IsMixerOf};
ghost use Rattle.run_samples.specs.Sampling.{CanMix, IsSamplerOf, sampled_in_parts, sampler_after, samples_in};

use board_base::{CLOCK_LIMIT, Trails};
use catchup_engine::Machine;
use outside_io::{Sink, SinkFault};
use run_windows::{RecordObserver, SyncedMachine, Until};
use sound_pcm::Mixer;
use tape_ports::Tape;

/// Writes the samples of a run: an observer of its records.
#[derive(Drop)]
pub struct Sampler {
    mixer: Mixer,
}

impl RecordObserver for Sampler {
    ghost can_take = { λ s from records upto. CanMix s.mixer from records upto };

    ghost writes = { samples_in };

    ghost next = { sampler_after };

    ghost in_parts = { sampled_in_parts };

    fn take<O: Sink>(
        &mut self,
        trails: &Trails<'_>,
        upto: u64,
        out: &mut O,
    ) -> Result<(), SinkFault> {
        self.mixer.take(trails, upto, out)
    }
}

/// A mixer that begins a group of `per` clocks, with these levels of both POKEYs.
fn mixer_of(clock: u64, per: u32, first: [u8; 4], second: [u8; 4]) -> Mixer
    requires some { 1 ≤ per }
    requires longest { per ≤ MAX_PER }
    requires first { AreLevels first }
    requires second { AreLevels second }
    ensures { result ≡ record { clock = clock; per = per; sound1 = first; sound2 = second; sum = 0; count = 0 } }
{
    let [a1, a2, a3, a4] = first;
    let [b1, b2, b3, b4] = second;
    Mixer::new(clock, per, [a1, a2, a3, a4, b1, b2, b3, b4])
}

/// A mixer that stands where the board of a synchronised machine stands, with its levels.
fn mixer_at<M: Machine>(synced: &SyncedMachine<'_, M>, per: u32) -> Mixer
    requires some { 1 ≤ per }
    requires longest { per ≤ MAX_PER }
    ensures mixer { IsMixerOf (value_of synced.now).board per result }
    ensures clock { (value_of synced.now).board.peripherals.clock ≤ CLOCK_LIMIT + 16 }
{
    let machine = synced.machine();
    machine.lemma_range();
    let (first, second) = machine.sound_levels();
    mixer_of(machine.clock(), per, first, second)
}

impl Sampler {
    /// A sampler that begins a group of `per` clocks, 1 to 65,535, where the board of a
    /// synchronised machine stands.
    pub fn of<M: Machine>(synced: &SyncedMachine<'_, M>, per: u32) -> Sampler
        requires some { 1 ≤ per }
        requires longest { per ≤ MAX_PER }
        ensures begins { IsSamplerOf (value_of synced.now).board per result }
        ensures clock { (value_of synced.now).board.peripherals.clock ≤ CLOCK_LIMIT + 16 }
    {
        Sampler {
            mixer: mixer_at(synced, per),
        }
    }
}

/// Runs the board over a tape to the first boundary that isn't before the limit or to an
/// undocumented opcode, and writes its samples: each is the sum of the eight levels of the two
/// POKEYs over `per` clocks, 1 to 65,535, as four bytes, the lowest first. The last clocks, which
/// are no whole group, give none. After a fault the machine is only to be dropped. It takes no
/// memory.
pub fn run_sampled<M: Machine, O: Sink>(
    synced: &mut SyncedMachine<'_, M>,
    tape: &Tape,
    limit: u64,
    per: u32,
    out: &mut O,
) -> Result<(), SinkFault>
    requires limit { limit ≤ CLOCK_LIMIT }
    requires some { 1 ≤ per }
    requires longest { per ≤ MAX_PER }
    ensures same { loan_of synced.new ≡ loan_of synced.old }
    ensures taken { Takes (O.taken out.old) (O.taken out.new) (sampled_bytes tape.now.entries limit per (value_of synced.old).board) result }
    ensures cause { HasCause (O.faults out.old) (O.faults out.new) result }
    ensures board { OnOk result ((value_of synced.new).board ≡ cleared (to_boundary tape.now.entries limit (value_of synced.old).board)) }
{
    let mut sampler = Sampler::of(synced, per);
    synced.watch(tape, Until::Boundary(limit), &mut sampler, out)?;
    Ok(())
}
