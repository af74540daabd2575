//! A sink over a stream.
ghost use Rattle.std.specs.Prelude.{◌≡◌, ℕ, [], take, OnOk, OnErr, IsOk, None};
ghost use Rattle.std.specs.Io.KnownBytes.{Appends};
ghost use Rattle.outside_io.specs.Causes.{HasCause, faults_after};
ghost use Rattle.outside_io.specs.Sink.{Takes};

use crate::answers::SinkFault;
use crate::outside::Sink;
use crate::pieces::write_whole;
use std::io::Write;
use std::marker::Model;

/// Hands each piece on to a stream, in as many of its writes as it takes. It states nothing of what
/// the stream took. A write of the stream that fails, or that takes nothing, is a fault. Contracts
/// see it as the pair of the stream and the count of faults.
#[derive(Drop)]
pub struct TextSink<W: Write + Drop> {
    to: W,
    faults: u64,
}

impl<W: Write + Drop> Model for TextSink<W> {
    ghost use Rattle.std.specs.Prelude.{ℕ};

    ghost Value = { W × ℕ };

    ghost view = { λ s. (s.to, s.faults) };
}

impl<W: Write + Drop> TextSink<W> {
    /// It takes no memory.
    pub fn new(to: W) -> TextSink<W>
        ensures { result ≡ (to, 0) }
    {
        TextSink { to, faults: 0 }
    }
}

impl<W: Write + Drop> Sink for TextSink<W> {
    ghost taken = { λ _. None };

    ghost faults = { λ s. s.1 };

    /// Where the stream states what it holds, that has grown by the piece, or after an `Err` by a
    /// first part.
    fn write(&mut self, bytes: &[u8]) -> Result<(), SinkFault>
        ensures taken { Takes None None bytes.now result }
        ensures cause { HasCause self.old.1 self.new.1 result }
        ensures empty { bytes.now ≡ [] → IsOk result }
        ensures counted { self.new.1 ≡ faults_after self.old.1 result }
        ensures passed { OnOk result (Appends (W.contents self.old.0) (W.contents self.new.0) bytes.now) }
        ensures part { OnErr result ((k : ℕ) × Appends (W.contents self.old.0) (W.contents self.new.0) (take k bytes.now)) }
    {
        match write_whole(&mut self.to, bytes) {
            Ok(()) => Ok(()),
            Err(_) => {
                self.faults = self.faults.saturating_add(1);
                Err(SinkFault)
            }
        }
    }
}
