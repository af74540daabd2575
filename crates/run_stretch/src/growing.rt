//! A sink that has room for all, as long as there is memory.
ghost use Rattle.std.specs.Prelude.{Some};

use outside_io::{Sink, SinkFault};
use std::alloc::Global;

/// Keeps the bytes that it takes. A write takes memory, and fails where there is none.
#[derive(Debug, Drop)]
pub struct GrowingSink {
    bytes: Vec<u8>,
    faults: u64,
}

impl GrowingSink {
    ghost use Rattle.std.specs.Prelude.{◌≡◌, []};

    /// A sink that took nothing yet.
    pub fn new(alloc: Global) -> GrowingSink
        ensures { result.bytes.items ≡ [] }
    {
        GrowingSink {
            bytes: Vec::new(alloc),
            faults: 0,
        }
    }

    /// What was taken.
    pub fn bytes(&self) -> &[u8]
        ensures { result.now ≡ self.now.bytes.items }
    {
        &self.bytes
    }

    /// Forgets what was taken, and keeps its memory.
    pub fn clear(&mut self)
        ensures { self.new.bytes.items ≡ [] }
    {
        self.bytes.clear();
    }
}

impl Sink for GrowingSink {
    ghost taken = { λ s. Some s.bytes.items };

    ghost faults = { λ s. s.faults };

    fn write(&mut self, bytes: &[u8]) -> Result<(), SinkFault> {
        if bytes.is_empty() {
            return Ok(());
        }
        match self.bytes.extend_from_slice(bytes) {
            Ok(()) => Ok(()),
            Err(_) => {
                self.faults = self.faults.saturating_add(1);
                Err(SinkFault)
            }
        }
    }
}
