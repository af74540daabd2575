//! A sink that never fails.
ghost use Rattle.std.specs.Prelude.{◌≡◌, IsOk, None};

use crate::answers::SinkFault;
use crate::outside::Sink;

/// A sink into which any piece goes and from which none comes back; contracts see no byte of it. It
/// has no faults to count.
#[derive(Clone, Copy, Debug, Default, PartialEq, Eq)]
pub struct SteadySink;

impl SteadySink {
    /// It takes no memory.
    pub fn new() -> SteadySink
        ensures { result ≡ record {} }
    {
        SteadySink
    }
}

impl Sink for SteadySink {
    ghost taken = { λ _. None };

    ghost faults = { λ _. 0 };

    fn write(&mut self, _bytes: &[u8]) -> Result<(), SinkFault>
        ensures no_fault { IsOk result }
    {
        Ok(())
    }
}
