//! An image of two sources.
ghost use Rattle.run_stretch.specs.Assembling.{Assembles};

use asm_text::AsmFault;
use rom_image::Image;
use std::alloc::Global;
use thiserror::Error;

/// Why two sources give no image: the first that is refused, or lack of memory.
#[derive(Clone, Copy, Debug, PartialEq, Eq, Error)]
pub enum AssemblyFault {
    /// The processor's source is refused.
    Processor(AsmFault),
    /// The generator's source is refused.
    Generator(AsmFault),
    /// There was no memory.
    NoMemory,
}

/// Assembles the processor's source and then the generator's into one image, which has zeros
/// elsewhere.
pub fn assemble(alloc: Global, processor: &[u8], generator: &[u8]) -> Result<Image, AssemblyFault>
    ensures { Assembles processor.now generator.now result }
{
    let Ok(mut image) = Image::blank(alloc) else {
        return Err(AssemblyFault::NoMemory);
    };
    match asm_cpu::assemble(alloc, processor, &mut image) {
        Ok(_) => {}
        Err(AsmFault::OutOfMemory) => return Err(AssemblyFault::NoMemory),
        Err(fault) => return Err(AssemblyFault::Processor(fault)),
    }
    match asm_avg::assemble(alloc, generator, &mut image) {
        Ok(_) => Ok(image),
        Err(AsmFault::OutOfMemory) => Err(AssemblyFault::NoMemory),
        Err(fault) => Err(AssemblyFault::Generator(fault)),
    }
}
