ghost use Rattle.std.specs.Prelude.{None};

use outside_io::{Sink, SinkFault};

/// A sink for an observer that writes nothing. It keeps no byte, and never fails.
#[derive(Clone, Copy, Debug, PartialEq, Eq)]
pub struct NullSink;

impl Sink for NullSink {
    ghost taken = { λ _. None };

    ghost faults = { λ _. 0 };

    fn write(&mut self, _bytes: &[u8]) -> Result<(), SinkFault> {
        Ok(())
    }
}
