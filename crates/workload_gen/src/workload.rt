ghost use Rattle.std.specs.Prelude.{◌≡◌, IfOk};
ghost use Rattle.workload_gen.specs.Roms.{image_of};
ghost use Rattle.workload_gen.specs.Tape.{tape_of};

use crate::draws::Draws;
use crate::roms::workload_image;
use crate::tape::tape_entries;
use crate::words::vector_words;
use board_base::OutOfMemory;
use rom_image::Image;
use std::alloc::Global;
use tape_ports::Tape;

/// The clock at which the workload ends.
const END: u64 = 20_000_000;

/// Makes the image and the tape of the workload that a seed gives.
#[tactic(auto, using(crate::proofs::SizeLaws::made), unfolding(crate::specs::Tape::tape_of))]
pub fn make(alloc: Global, seed: u64) -> Result<(Image, Tape), OutOfMemory>
    ensures image { IfOk result (λ made. made.0 ≡ image_of seed) }
    ensures tape { IfOk result (λ made. made.1 ≡ tape_of seed) }
{
    let mut draws = Draws::new(seed);
    let words = vector_words(alloc, &mut draws)?;
    let entries = tape_entries(alloc, &mut draws)?;
    let image = workload_image(alloc, &words)?;
    let tape = Tape::new(alloc, &entries, END)?;
    Ok((image, tape))
}
