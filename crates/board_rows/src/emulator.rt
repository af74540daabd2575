use crate::stopped::Stopped;
use outside_io::{MemoryShelf, MemorySink};
use std::alloc::Global;

/// What has the board's command line.
pub trait Emulator {
    /// Does a command, by its words after the program's name, and gives its status. It is stopped
    /// where there is no memory for the words.
    fn command(
        &self,
        alloc: Global,
        words: &[String],
        shelf: &mut MemoryShelf,
        out: &mut MemorySink,
        notes: &mut MemorySink,
    ) -> Result<u8, Stopped>;
}
