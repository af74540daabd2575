//! A buffered writer.
ghost use Rattle.std.specs.Prelude.{◌≡◌, ◌+◌, ◌≤◌, [], ◌++◌, length, OnOk, OnErr};
ghost use Rattle.outside_io.specs.Causes.{HasCause};
ghost use Rattle.outside_io.specs.Gathering.{Gathers};
ghost use Rattle.outside_io.specs.Sink.{Takes};

use crate::answers::SinkFault;
use crate::outside::Sink;
use arrayvec::ArrayVec;
use std::marker::Model;

/// The bytes of a block.
pub const BLOCK_LEN: usize = 4096;

/// A block has 4,096 bytes. It states a law, and does nothing.
pub fn lemma_block_len()
    ensures { BLOCK_LEN ≡ 4096 }
{}

/// Pieces on their way to a sink, many of which go out in one write. It takes no memory. What waits
/// in it when it is dropped is lost.
#[derive(Drop)]
pub struct BlockWriter {
    bytes: ArrayVec<u8, BLOCK_LEN>,
}

impl Model for BlockWriter {
    ghost use Rattle.std.specs.Prelude.{ℕ, ◌≤◌, List, length};
    ghost use Rattle.outside_io.specs.declared.block_writer.TheConstants.{BLOCK_LEN};

    ghost Value = { List ℕ };

    ghost view = { λ b. b.bytes.items };

    ghost invariant = { λ b. length b.bytes.items ≤ BLOCK_LEN };
}

impl BlockWriter {
    /// A writer in which no byte waits.
    pub fn new() -> BlockWriter
        ensures { result ≡ [] }
    {
        BlockWriter {
            bytes: ArrayVec::new(),
        }
    }

    /// Puts a piece behind the bytes that wait. Where it doesn't fit, they are written first.
    pub fn push<O: Sink>(&mut self, piece: &[u8], out: &mut O) -> Result<(), SinkFault>
        requires { length piece.now ≤ BLOCK_LEN }
        ensures taken { Gathers (O.taken out.old) (O.taken out.new) (self.old ++ piece.now) self.new result }
        ensures cause { HasCause (O.faults out.old) (O.faults out.new) result }
        ensures kept { OnErr result (self.new ≡ self.old) }
        ensures waits { length self.old + length piece.now ≤ BLOCK_LEN → out.new ≡ out.old }
    {
        if piece.len() > self.bytes.remaining_capacity() {
            self.flush(out)?;
        }
        // There is room for it now, so it is put.
        let _put = self.bytes.try_extend_from_slice(piece).is_ok();
        Ok(())
    }

    /// Writes the bytes that wait, if there are any, and leaves none.
    pub fn flush<O: Sink>(&mut self, out: &mut O) -> Result<(), SinkFault>
        ensures taken { Takes (O.taken out.old) (O.taken out.new) self.old result }
        ensures cause { HasCause (O.faults out.old) (O.faults out.new) result }
        ensures emptied { OnOk result (self.new ≡ []) }
        ensures kept { OnErr result (self.new ≡ self.old) }
    {
        if self.bytes.is_empty() {
            return Ok(());
        }
        out.write(self.bytes.as_slice())?;
        self.bytes.clear();
        Ok(())
    }
}
