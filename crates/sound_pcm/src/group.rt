ghost use Rattle.std.specs.Prelude.{◌≡◌, ◌≤◌, ◌*◌, ◌++◌, OnOk, replicate};
ghost use Rattle.outside_io.specs.Causes.{HasCause};
ghost use Rattle.outside_io.specs.Gathering.{Gathers};
ghost use Rattle.sound_pcm.specs.Grouping.{IsGroup, HasGrown};
ghost use Rattle.sound_pcm.specs.Samples.{bytes_of, samples};

use outside_io::{BlockWriter, Sink, SinkFault};

/// The group of clocks under way: how many clocks one has, the sum of the weights of those that are
/// done, and their number.
#[derive(Clone, Copy)]
pub(crate) struct Group {
    pub(crate) per: u32,
    pub(crate) sum: u32,
    pub(crate) count: u32,
}

impl Group {
    /// Adds clocks of one weight, and puts the samples that become whole into the block, each as
    /// four bytes.
    pub(crate) fn add<O: Sink>(
        &mut self,
        weight: u32,
        clocks: u64,
        block: &mut BlockWriter,
        out: &mut O,
    ) -> Result<(), SinkFault>
        requires group { IsGroup self.old }
        requires weight { weight ≤ 8 * u8.MAX }
        ensures taken { Gathers (O.taken out.old) (O.taken out.new)
            (block.old ++ bytes_of (samples self.old.per self.old.sum self.old.count (replicate clocks weight))) block.new result }
        ensures cause { HasCause (O.faults out.old) (O.faults out.new) result }
        ensures group { IsGroup self.new }
        ensures next { OnOk result (HasGrown self.old self.new (replicate clocks weight)) }
    {
        let mut left = clocks;
        while left >= u64::from(self.per - self.count) {
            let missing = self.per - self.count;
            let sample = self.sum + weight * missing;
            block.push(&sample.to_le_bytes(), out)?;
            left -= u64::from(missing);
            self.sum = 0;
            self.count = 0;
        }
        // Fewer clocks are left than a group has.
        let rest = left as u32;
        self.sum += weight * rest;
        self.count += rest;
        Ok(())
    }
}
