//! What a stretch returns, as far as there is room for it.
ghost use Rattle.std.specs.Prelude.{◌≡◌, ℕ, List, [], ◌++◌, IfOk, OnOk};
ghost use Rattle.run_stretch.specs.Kept.{IsKept};

use std::alloc::{AllocError, Global};

/// The bytes of a text that there is room for, and how many bytes the text has.
#[derive(Debug, Drop)]
pub(crate) struct KeptText {
    pub(crate) room: usize,
    pub(crate) bytes: Vec<u8>,
    pub(crate) wanted: u64,
}

impl KeptText {
    /// A text that has nothing yet, with the memory for all that there is room for.
    pub(crate) fn new(alloc: Global, room: usize) -> Result<KeptText, AllocError>
        ensures { IfOk result (λ t. IsKept room [] t) }
    {
        Ok(KeptText {
            room,
            bytes: Vec::with_capacity(alloc, room)?,
            wanted: 0,
        })
    }

    /// Appends bytes to the text. Where it has more bytes than there is room for, only their
    /// number is kept. There is no memory for a text of 2^64 bytes or more.
    pub(crate) fn take(&mut self, more: &[u8]) -> Result<(), AllocError>
        ensures { (room : ℕ) → (text : List ℕ) → IsKept room text self.old → OnOk result (IsKept room (text ++ more.now) self.new) }
    {
        let Some(wanted) = self.wanted.checked_add(more.len() as u64) else {
            return Err(AllocError);
        };
        if wanted > self.room as u64 {
            self.bytes.clear();
            self.wanted = wanted;
            return Ok(());
        }
        self.bytes.extend_from_slice(more)?;
        self.wanted = wanted;
        Ok(())
    }
}
