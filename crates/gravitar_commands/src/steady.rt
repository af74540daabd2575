//! What the program does where no I/O call fails.
ghost use Rattle.std.specs.Prelude.{◌≡◌, ◌≢◌, false, Some};
ghost use Rattle.outside_io.specs.Content.{content_of};
ghost use Rattle.gravitar_commands.specs.Outcome.{Comes};

use crate::program::gravitar;
use crate::words::Words;
use outside_io::{Sink, SteadyShelf, SteadySink};
use std::alloc::Global;

/// The status over files in memory and an output that always takes.
pub fn steady_status<N: Sink>(
    alloc: Global,
    words: &Words,
    shelf: &mut SteadyShelf,
    notes: &mut N,
) -> u8
    ensures no_fault { result ≢ 6 }
    ensures defined { shelf.old.changed ≡ false → result ≢ 7 → Comes words.now (Some (content_of shelf.old.files)) (λ outcome. result ≡ outcome.status) }
{
    let mut out = SteadySink::new();
    gravitar(alloc, words, shelf, &mut out, notes)
}
