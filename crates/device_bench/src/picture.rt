ghost use Rattle.std.specs.Prelude.{◌≡◌, IfOk, OnOk};
ghost use Rattle.board_base.specs.Ticks.{made, ticks};
ghost use Rattle.avg_device.specs.Tick.{vg_gives, vg_go, vg_tick};
ghost use Rattle.device_bench.specs.Tally.{tally_of};

use crate::tally::Tally;
use crate::work::Work;
use avg_decode::{VgWord, spell};
use avg_device::VectorUnit;
use board_base::{OutOfMemory, Trail, VectorMemory};
use std::alloc::Global;

/// A picture that is drawn again and again, in the vector RAM.
#[derive(Drop)]
struct Picture {
    memory: VectorMemory,
    words: u16,
}

impl Picture {
    /// A picture that begins in the middle of the screen, in white, at the largest scales: three
    /// words of 3 clocks.
    fn begin(alloc: Global) -> Result<Picture, OutOfMemory> {
        let rom = vec![in alloc; 0u8; 14_336]?;
        let mut picture = Picture {
            memory: VectorMemory::new(alloc, &rom)?,
            words: 0,
        };
        picture.add(spell(VgWord::Cntr));
        picture.add(spell(VgWord::Stat {
            colour: 7,
            intensity: 15,
        }));
        picture.add(spell(VgWord::Scal { bin: 0, lin: 0 }));
        Ok(picture)
    }

    /// Adds a word, where the RAM has room for it.
    fn add(&mut self, word: u16) {
        if self.words < 1024 {
            let [low, high] = word.to_le_bytes();
            self.memory.put(2 * self.words, low);
            self.memory.put(2 * self.words + 1, high);
            self.words += 1;
        }
    }

    /// Ends the picture with a jump to its first word: one word of 3 clocks.
    fn end(mut self) -> VectorMemory {
        self.add(spell(VgWord::Jmpl { to: 0 }));
        let Picture { memory, words: _ } = self;
        memory
    }
}

/// A picture of 300 short vectors, there and back: 9 + 300 * (3 + 16) + 3 = 5,712 clocks.
pub fn short_vectors(alloc: Global) -> Result<VectorMemory, OutOfMemory> {
    let mut picture = Picture::begin(alloc)?;
    for _ in 0..150 {
        picture.add(spell(VgWord::Svec {
            dx: 10,
            dy: 8,
            z: 1,
        }));
        picture.add(spell(VgWord::Svec {
            dx: -10,
            dy: -8,
            z: 1,
        }));
    }
    Ok(picture.end())
}

/// A picture of 30 long vectors, there and back: 9 + 30 * (5 + 4,096) + 3 = 123,042 clocks.
pub fn long_vectors(alloc: Global) -> Result<VectorMemory, OutOfMemory> {
    let mut picture = Picture::begin(alloc)?;
    for _ in 0..15 {
        picture.add(spell(VgWord::Vctr { dy: 2000 }));
        picture.add(0x2000 + 3000);
        picture.add(spell(VgWord::Vctr { dy: -2000 }));
        picture.add(0x4000 - 3000);
    }
    Ok(picture.end())
}

/// Draws for so many clocks, from the first word on, and returns what strokes there were.
#[tactic(auto, using(crate::proofs::Slices::drawn))]
pub fn draw<V: VectorUnit>(
    alloc: Global,
    unit: &mut V,
    memory: &VectorMemory,
    work: Work,
) -> Result<Tally, OutOfMemory>
    ensures state { OnOk result (V.device unit.new ≡ ticks (vg_tick memory.now) 0 work.clocks (vg_go (V.device unit.old))) }
    ensures strokes { IfOk result (λ tally. tally ≡ tally_of (made (vg_tick memory.now) vg_gives 0 work.clocks (vg_go (V.device unit.old)))) }
{
    let Work { clocks, slice } = work;
    let mut trail = Trail::new(alloc, slice as usize)?;
    let mut tally = Tally::new();
    let mut done = 0;
    unit.go();
    while done < clocks {
        let n = (clocks - done).min(slice);
        unit.advance(memory, done, n, &mut trail);
        tally.take(trail.records());
        trail.clear();
        done += n;
    }
    Ok(tally)
}
