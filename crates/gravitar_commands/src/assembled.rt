ghost use Rattle.asm_text.specs.Answers.{Answers};
ghost use Rattle.gravitar_commands.specs.Sources.{assembled_in};

use asm_core::Listing;
use asm_text::AsmFault;
use rom_image::Image;
use std::alloc::Global;

/// Whose statements a source has.
#[derive(Clone, Copy, Debug, PartialEq, Eq)]
pub enum Language {
    /// Those of the processor.
    Processor,
    /// Those of the vector generator.
    Generator,
}

/// What two sources give: their image, and the listing of each.
#[derive(Drop)]
pub struct Assembled {
    pub image: Image,
    pub processor: Listing,
    pub generator: Listing,
}

/// Assembles a source into an image.
#[tactic(auto, unfolding(crate::specs::Sources::assembled_in))]
pub fn assemble(
    alloc: Global,
    language: Language,
    text: &[u8],
    image: &mut Image,
) -> Result<Listing, AsmFault>
    ensures { Answers (λ listing. (image.new, listing)) result (assembled_in language text.now image.old) }
{
    match language {
        Language::Processor => asm_cpu::assemble(alloc, text, image),
        Language::Generator => asm_avg::assemble(alloc, text, image),
    }
}
