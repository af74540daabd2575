ghost use Rattle.std.specs.Prelude.{◌≡◌, [], ◌∷◌, ◌++◌, OnOk, OnErr};

use board_base::OutOfMemory;
use std::alloc::Global;
use std::marker::Model;

/// What a line of a source gives: `count` bytes from the address `addr` on. `line` is the line's
/// number, counted from 1.
#[derive(Clone, Copy, Debug, PartialEq, Eq)]
pub struct ListingLine {
    pub addr: u16,
    pub count: u32,
    pub line: u32,
}

/// The lines of a source that give bytes, in order.
#[derive(Drop)]
pub struct Listing {
    lines: Vec<ListingLine>,
}

impl Model for Listing {
    ghost use Rattle.std.specs.Prelude.{List};
    ghost use Rattle.asm_core.specs.declared.listing.ListingLine.{ListingLine};

    ghost Value = { List ListingLine };

    ghost view = { λ l. l.lines.items };
}

impl Listing {
    /// A listing without a line, which takes no memory yet.
    pub fn new(alloc: Global) -> Listing
        ensures { result ≡ [] }
    {
        Listing {
            lines: Vec::new(alloc),
        }
    }

    /// Appends a line. After a refusal the listing is as before.
    pub fn push(&mut self, line: ListingLine) -> Result<(), OutOfMemory>
        ensures ok { OnOk result (self.new ≡ self.old ++ line ∷ []) }
        ensures err { OnErr result (self.new ≡ self.old) }
    {
        self.lines.push(line)?;
        Ok(())
    }

    /// The lines, in the order in which they were pushed.
    pub fn lines(&self) -> &[ListingLine]
        ensures { result.now ≡ self.now }
    {
        self.lines.as_slice()
    }
}
