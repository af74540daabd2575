ghost use Rattle.std.specs.Prelude.{◌≡◌, ℕ, IfOk, IfSome};
ghost use Rattle.command_line.specs.CommandValue.{asm_of};
ghost use Rattle.outside_io.specs.Hosts.{seen};
ghost use Rattle.gravitar_commands.specs.Outcome.{asm_files, read_as, source_file};
ghost use Rattle.gravitar_commands.specs.Sources.{assembled_in, both_listings, source_read};
ghost use Rattle.gravitar_commands.specs.Stages.{Gives, Keeps, Performs, StageAbsences, StageFaults};

use crate::assembled::{Assembled, Language, assemble};
use crate::cause::Cause;
use crate::failure::{Ending, Failure};
use crate::load::{bad, fetch};
use asm_core::Listing;
use asm_listing::{Text, push_listing};
use asm_text::{AsmFault, TEXT_LIMIT};
use board_base::OutOfMemory;
use command_line::AsmWords;
use outside_io::{Host, Shelf, Sink};
use rom_image::Image;
use std::alloc::Global;

/// What these bytes give as a source, put into an image.
fn read_source(
    alloc: Global,
    language: Language,
    name: &str,
    bytes: &[u8],
    image: &mut Image,
) -> Result<Listing, Failure>
    ensures content { Gives (λ listing. (image.new, listing)) (read_as name.now (source_read (assembled_in language bytes.now image.old))) result }
    ensures faults { (n : ℕ) → StageFaults n n result }
{
    match assemble(alloc, language, bytes, image) {
        Ok(listing) => Ok(listing),
        Err(AsmFault::TooLong) => Err(bad(alloc, name, Cause::Source(AsmFault::TooLong))),
        Err(AsmFault::Line { line, cause }) => Err(bad(
            alloc,
            name,
            Cause::Source(AsmFault::Line { line, cause }),
        )),
        Err(AsmFault::OutOfMemory) => Err(Failure::NoMemory),
    }
}

/// A source file, put into an image.
#[tactic(auto, unfolding(crate::specs::Outcome::source_file))]
fn load_source<S: Shelf>(
    alloc: Global,
    language: Language,
    name: &str,
    image: &mut Image,
    shelf: &mut S,
) -> Result<Listing, Failure>
    ensures content { IfSome (S.files shelf.old) (λ files.
        Gives (λ listing. (image.new, listing)) (source_file language files name.now image.old) result) }
    ensures files { S.files shelf.new ≡ S.files shelf.old }
    ensures stores { S.stores shelf.new ≡ S.stores shelf.old }
    ensures faults { StageFaults (S.faults shelf.old) (S.faults shelf.new) result }
    ensures absences { StageAbsences (S.absences shelf.old) (S.absences shelf.new) result }
{
    let bytes = fetch(alloc, name, TEXT_LIMIT, shelf)?;
    read_source(alloc, language, name, &bytes, image)
}

/// Both sources, the processor's wholly before the generator's, in one blank image.
#[tactic(auto, unfolding(crate::specs::Outcome::asm_files))]
fn load_asm<S: Shelf>(
    alloc: Global,
    words: &AsmWords<'_>,
    shelf: &mut S,
) -> Result<Assembled, Failure>
    ensures content { IfSome (S.files shelf.old) (λ files. Gives (λ made. made) (asm_files files words.now) result) }
    ensures stores { S.stores shelf.new ≡ S.stores shelf.old }
    ensures faults { StageFaults (S.faults shelf.old) (S.faults shelf.new) result }
    ensures absences { StageAbsences (S.absences shelf.old) (S.absences shelf.new) result }
{
    let mut image = Image::blank(alloc)?;
    let processor = load_source(
        alloc,
        Language::Processor,
        words.processor,
        &mut image,
        shelf,
    )?;
    let generator = load_source(
        alloc,
        Language::Generator,
        words.generator,
        &mut image,
        shelf,
    )?;
    Ok(Assembled {
        image,
        processor,
        generator,
    })
}

/// The listing of the processor's source, and then that of the generator's.
fn list_both(alloc: Global, made: &Assembled) -> Result<Text, OutOfMemory>
    ensures { IfOk result (λ text. text ≡ both_listings made.now) }
{
    let mut text = Text::new(alloc);
    push_listing(&mut text, &made.processor, &made.image)?;
    push_listing(&mut text, &made.generator, &made.image)?;
    Ok(text)
}

/// Assembles two sources into an image, writes their listings, and stores the image. All memory is
/// taken before anything is written.
#[inline(never)]
pub fn perform_asm<S: Shelf, O: Sink>(
    alloc: Global,
    words: &AsmWords<'_>,
    host: &mut Host<'_, S, O>,
) -> Result<Ending, Failure>
    ensures outcome { Performs (asm_of words.now) (seen host.old) (seen host.new) result }
    ensures done { IfOk result (λ ending. ending ≡ Ending.Done) }
    ensures keeps { Keeps (seen host.old) (seen host.new) result }
{
    let made = load_asm(alloc, words, host.shelf)?;
    let text = list_both(alloc, &made)?;
    host.write(text.bytes())?;
    host.store(words.image, made.image.bytes())?;
    Ok(Ending::Done)
}
