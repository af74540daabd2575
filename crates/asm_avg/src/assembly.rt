ghost use Rattle.asm_text.specs.Answers.{Answers};
ghost use Rattle.asm_avg.specs.Sources.{source_assembled};

use crate::Avg;
use asm_core::{Listing, Rom};
use asm_text::AsmFault;
use rom_image::{Image, VECTOR_ROM_START};
use std::alloc::Global;

/// The addresses whose bytes a source may give: those of the vector ROM.
pub const VECTOR_ROM: Rom = Rom {
    low: VECTOR_ROM_START as u32,
    high: 0x6000,
    even: true,
};

/// Assembles a source of the vector generator's statements into an image, whose other bytes stay,
/// and lists the lines that give bytes. After a refusal the image's bytes are open.
pub fn assemble(alloc: Global, text: &[u8], image: &mut Image) -> Result<Listing, AsmFault>
    ensures { Answers (λ listing. (image.new, listing)) result (source_assembled text.now image.old) }
{
    asm_core::assemble(alloc, &Avg, text, VECTOR_ROM, image)
}
