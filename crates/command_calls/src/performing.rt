//! A command line, done over files in memory.
ghost use Rattle.std.specs.Prelude.{◌≡◌, ◌≢◌, false, [], Some};
ghost use Rattle.outside_io.specs.Content.{content_of};
ghost use Rattle.gravitar_commands.specs.Outcome.{Comes};
ghost use Rattle.command_calls.specs.Performed.{Performed};

use crate::counted_text::CountedText;
use crate::request_shelf::RequestShelf;
use gravitar_commands::{Words, gravitar};
use std::alloc::Global;

/// Does a command line over the files of a shelf. Its status is never 6, and but for 7 the stores
/// and both texts are what `gravitar` is defined to do.
pub fn perform(
    alloc: Global,
    words: &Words,
    shelf: &mut RequestShelf,
    out: &mut CountedText,
    notes: &mut CountedText,
) -> u8
    requires unchanged { shelf.old.changed ≡ false }
    requires no_store { shelf.old.stores ≡ [] }
    requires no_text { out.old ≡ [] }
    requires no_note { notes.old ≡ [] }
    ensures no_fault { result ≢ 6 }
    ensures does { result ≢ 7 → Comes words.now (Some (content_of shelf.old.files)) (λ outcome.
        Performed outcome result out.new notes.new shelf.new.stores) }
{
    gravitar(alloc, words, shelf, out, notes)
}
