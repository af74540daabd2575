ghost use Rattle.std.specs.Prelude.{◌≡◌};
ghost use Rattle.asm_text.specs.Answers.{Answers};
ghost use Rattle.asm_core.specs.Images.{assembled};
ghost use Rattle.asm_cpu.specs.Statements.{cpu_statement};

use crate::statement::Cpu;
use asm_core::{Listing, Rom};
use asm_text::AsmFault;
use rom_image::{Image, PROGRAM_ROM_START};
use std::alloc::Global;

/// The addresses of the program ROM.
pub const PROGRAM_ROM: Rom = Rom {
    low: PROGRAM_ROM_START as u32,
    high: 0x10000,
    even: false,
};

/// Assembles a processor source into an image: puts each line's bytes at its address, leaves all
/// other bytes of the image, and lists the lines that give bytes, in their order.
///
/// The text has at most `TEXT_LIMIT` bytes. After a fault the image is only to be dropped.
pub fn assemble(alloc: Global, text: &[u8], image: &mut Image) -> Result<Listing, AsmFault>
    ensures { Answers (λ listing. (image.new, listing)) result (assembled cpu_statement PROGRAM_ROM text.now image.old) }
{
    asm_core::assemble(alloc, &Cpu, text, PROGRAM_ROM, image)
}
