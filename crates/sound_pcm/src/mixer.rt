ghost use Rattle.std.specs.Prelude.{◌≡◌, ◌+◌, ◌-◌, ◌*◌, ◌≤◌, ◌++◌, OnOk, take, drop, sum, replicate};
ghost use Rattle.board_base.specs.declared.board.TheConstants.{CLOCK_END};
ghost use Rattle.outside_io.specs.Causes.{HasCause};
ghost use Rattle.outside_io.specs.Gathering.{Gathers};
ghost use Rattle.outside_io.specs.Sink.{Takes};
ghost use Rattle.sound_pcm.specs.Mixing.{AreLevels, LevelsBetween, samples_of, mixed, held, changed};
ghost use Rattle.sound_pcm.specs.Samples.{bytes_of, samples};
ghost use Rattle.sound_pcm.specs.Sooner.{TakesSooner, comes_first};

use crate::group::Group;
use board_base::{Part, Record, Trails};
use outside_io::{BlockWriter, Sink, SinkFault};
use std::marker::Model;

/// The greatest level of a POKEY's channel.
pub const MAX_LEVEL: u8 = 15;

/// The clocks of a group at most.
pub const MAX_PER: u32 = 65_535;

/// Makes samples of the levels of both POKEYs. A sample is the sum of the eight levels over a group
/// of clocks, each clock with the levels after its records. It takes no memory. After a fault it is
/// only to be dropped.
#[derive(Drop)]
pub struct Mixer {
    clock: u64,
    sound1: [u8; 4],
    sound2: [u8; 4],
    group: Group,
}

impl Model for Mixer {
    ghost use Rattle.sound_pcm.specs.Grouping.{IsGroup};
    ghost use Rattle.sound_pcm.specs.Mixing.{MixerValue};

    ghost Value = { MixerValue };

    ghost view = { λ m. record {
      clock = m.clock;
      per = m.group.per;
      sound1 = m.sound1;
      sound2 = m.sound2;
      sum = m.group.sum;
      count = m.group.count;
    } };

    ghost invariant = { λ m. IsGroup m.group };
}

/// The sum of the levels of a POKEY.
fn loudness(levels: [u8; 4]) -> u32
    ensures sum { result ≡ sum levels }
    ensures bound { result ≤ 4 * u8.MAX }
{
    let [first, second, third, fourth] = levels;
    u32::from(first) + u32::from(second) + u32::from(third) + u32::from(fourth)
}

impl Mixer {
    /// A mixer from this clock on, with `per` clocks a sample, 1 to 65,535, and with the four
    /// levels of POKEY 1 and then those of POKEY 2, each at most 15. No clock of its group is done.
    pub fn new(clock: u64, per: u32, levels: [u8; 8]) -> Mixer
        requires some { 1 ≤ per }
        requires longest { per ≤ MAX_PER }
        requires levels { AreLevels levels }
        ensures { result ≡ record { clock = clock; per = per; sound1 = take 4 levels; sound2 = drop 4 levels; sum = 0; count = 0 } }
    {
        let [a1, a2, a3, a4, b1, b2, b3, b4] = levels;
        Mixer {
            clock,
            sound1: [a1, a2, a3, a4],
            sound2: [b1, b2, b3, b4],
            group: Group {
                per,
                sum: 0,
                count: 0,
            },
        }
    }

    /// Takes the clocks before `upto`, whose records these are, and writes the samples that become
    /// whole, each as four bytes, the lowest first. It writes them in blocks, and the first write
    /// that fails is the last. It passes over records that aren't of levels, whatever their clocks.
    pub fn take<O: Sink>(
        &mut self,
        trails: &Trails<'_>,
        upto: u64,
        out: &mut O,
    ) -> Result<(), SinkFault>
        requires from { self.old.clock ≤ upto }
        requires to { upto ≤ CLOCK_END }
        requires made1 { LevelsBetween self.old.clock trails.now.sound1.now.records upto }
        requires made2 { LevelsBetween self.old.clock trails.now.sound2.now.records upto }
        ensures taken { Takes (O.taken out.old) (O.taken out.new)
            (bytes_of (samples_of self.old trails.now.sound1.now.records trails.now.sound2.now.records upto)) result }
        ensures cause { HasCause (O.faults out.old) (O.faults out.new) result }
        ensures next { OnOk result (self.new ≡ mixed self.old trails.now.sound1.now.records trails.now.sound2.now.records upto) }
    {
        let mut sound1 = trails.sound1.records();
        let mut sound2 = trails.sound2.records();
        let mut block = BlockWriter::new();
        while let Some((part, made)) = take_sooner(&mut sound1, &mut sound2) {
            let Record::Levels { clock, .. } = made else {
                continue;
            };
            self.hold(clock, &mut block, out)?;
            self.change(part, made);
        }
        self.hold(upto, &mut block, out)?;
        block.flush(out)
    }

    /// Adds the clocks before `upto`, in none of which the levels change.
    fn hold<O: Sink>(
        &mut self,
        upto: u64,
        block: &mut BlockWriter,
        out: &mut O,
    ) -> Result<(), SinkFault>
        requires { self.old.clock ≤ upto }
        ensures taken { Gathers (O.taken out.old) (O.taken out.new) (block.old ++ bytes_of (samples self.old.per self.old.sum self.old.count
            (replicate (upto - self.old.clock) (sum self.old.sound1 + sum self.old.sound2)))) block.new result }
        ensures cause { HasCause (O.faults out.old) (O.faults out.new) result }
        ensures next { OnOk result (self.new ≡ held self.old upto) }
    {
        let weight = loudness(self.sound1) + loudness(self.sound2);
        self.group.add(weight, upto - self.clock, block, out)?;
        self.clock = upto;
        Ok(())
    }

    /// Takes on the levels of a record.
    fn change(&mut self, part: Part, made: Record)
        ensures { self.new ≡ changed self.old part made }
    {
        let Record::Levels { l1, l2, l3, l4, .. } = made else {
            return;
        };
        match part {
            Part::Pokey1 => self.sound1 = [l1, l2, l3, l4],
            Part::Pokey2 => self.sound2 = [l1, l2, l3, l4],
            Part::Generator | Part::Board => {}
        }
    }
}

/// Whether the first record of a list may be taken before that of the other: records of levels go
/// by their clocks, and any other record goes before them.
fn is_first(first: &Record, second: &Record) -> bool
    ensures { result ≡ comes_first first.now second.now }
{
    match (first, second) {
        (Record::Levels { clock: clock1, .. }, Record::Levels { clock: clock2, .. }) => {
            *clock1 <= *clock2
        }
        (Record::Levels { .. }, _) => false,
        _ => true,
    }
}

/// Takes the first record of the list whose first one comes sooner, and says whose it is. A record
/// that isn't of levels comes before any that is.
pub(crate) fn take_sooner(sound1: &mut &[Record], sound2: &mut &[Record]) -> Option<(Part, Record)>
    ensures { TakesSooner sound1.old.now sound2.old.now sound1.new.now sound2.new.now result }
{
    match (sound1.split_first(), sound2.split_first()) {
        (Some((made, others)), None) => {
            *sound1 = others;
            Some((Part::Pokey1, *made))
        }
        (None, Some((made, others))) => {
            *sound2 = others;
            Some((Part::Pokey2, *made))
        }
        (Some((first, others1)), Some((second, others2))) => {
            if is_first(first, second) {
                *sound1 = others1;
                return Some((Part::Pokey1, *first));
            }
            *sound2 = others2;
            Some((Part::Pokey2, *second))
        }
        (None, None) => None,
    }
}
