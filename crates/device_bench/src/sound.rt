ghost use Rattle.std.specs.Prelude.{◌≡◌, IfOk, OnOk};
ghost use Rattle.board_base.specs.Ticks.{times};
ghost use Rattle.pokey_chip.specs.Tick.{levels_made, pokey_tick};
ghost use Rattle.device_bench.specs.Tally.{tally_of};

use crate::tally::Tally;
use crate::work::Work;
use board_base::{OutOfMemory, Trail};
use pokey_chip::SoundUnit;
use std::alloc::Global;

/// Registers of a POKEY (C012294 data sheet).
const AUDCTL: u8 = 0x8;

const STIMER: u8 = 0x9;

const SKCTL: u8 = 0xF;

/// A pure tone at full volume.
const TONE: u8 = 0xAF;

/// What a POKEY plays.
#[derive(Clone, Copy, PartialEq, Eq)]
pub enum Tune {
    /// Four channels on the base clock, with periods of 21, 81, 141 and 201 pulses of 28 clocks
    /// each.
    FourOnTheBaseClock,
    /// One channel on the chip clock, with a period of 24 clocks.
    OneOnTheChipClock,
    /// Four channels on the base clock, with the shortest period, of 28 clocks.
    ShortestOnTheBaseClock,
    /// Channels 1 and 3 on the chip clock, with the shortest period, of four clocks, and the others
    /// on the base clock with theirs.
    ShortestOnTheChipClock,
}

impl Tune {
    /// What it is called in a report.
    pub fn name(self) -> &'static str {
        match self {
            Tune::FourOnTheBaseClock => "four channels on the base clock",
            Tune::OneOnTheChipClock => "one channel on the chip clock",
            Tune::ShortestOnTheBaseClock => "shortest periods on the base clock",
            Tune::ShortestOnTheChipClock => "shortest periods on the chip clock",
        }
    }

    /// AUDF of channels 1 to 4, and AUDCTL.
    fn settings(self) -> ([u8; 4], u8) {
        match self {
            Tune::FourOnTheBaseClock => ([20, 80, 140, 200], 0),
            Tune::OneOnTheChipClock => ([20, 0, 0, 0], 0x40),
            Tune::ShortestOnTheBaseClock => ([0, 0, 0, 0], 0),
            Tune::ShortestOnTheChipClock => ([0, 0, 0, 0], 0x60),
        }
    }

    /// The channels that play it.
    fn channels(self) -> u8 {
        match self {
            Tune::OneOnTheChipClock => 1,
            _ => 4,
        }
    }

    /// Makes a POKEY play it: lets the registers and the prescalers run, and begins each period.
    pub fn tell<S: SoundUnit>(self, unit: &mut S) {
        let ([audf1, audf2, audf3, audf4], audctl) = self.settings();
        let channels = self.channels();
        for (channel, audf) in [(0u8, audf1), (1, audf2), (2, audf3), (3, audf4)] {
            if channel < channels {
                unit.write(2 * channel % 16, audf);
                unit.write((2 * channel + 1) % 16, TONE);
            }
        }
        unit.write(AUDCTL, audctl);
        unit.write(SKCTL, 0x03);
        unit.write(STIMER, 0);
    }
}

/// Plays for so many clocks, and returns what levels there were.
#[tactic(auto, using(crate::proofs::Slices::played))]
pub fn play<S: SoundUnit>(alloc: Global, unit: &mut S, work: Work) -> Result<Tally, OutOfMemory>
    ensures state { OnOk result (S.device unit.new ≡ times pokey_tick work.clocks (S.device unit.old)) }
    ensures levels { IfOk result (λ tally. tally ≡ tally_of (levels_made 0 work.clocks (S.device unit.old))) }
{
    let Work { clocks, slice } = work;
    let mut trail = Trail::new(alloc, slice as usize)?;
    let mut tally = Tally::new();
    let mut done = 0;
    while done < clocks {
        let n = (clocks - done).min(slice);
        unit.advance(done, n, &mut trail);
        tally.take(trail.records());
        trail.clear();
        done += n;
    }
    Ok(tally)
}
