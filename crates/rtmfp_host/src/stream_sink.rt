//! A sink over any writer, as standard output.
ghost use Rattle.std.specs.Prelude.{◌≡◌, ◌↔◌, IsTrue, None};
ghost use Rattle.rtmfp_host.specs.Faults.{CountsWrote};

use crate::{Sink, Wrote};
use std::io::Write;

/// A writer to the outside. It tells nothing of the bytes that were taken. A write that takes none
/// of its bytes is a fault.
#[derive(Drop)]
pub struct StreamSink<W: Write + Drop> {
    writer: W,
    faults: u64,
}

impl<W: Write + Drop> StreamSink<W> {
    /// A sink that hands its bytes to the writer.
    pub fn new(writer: W) -> StreamSink<W>
        ensures { result.faults ≡ 0 }
    {
        StreamSink { writer, faults: 0 }
    }

    /// The answer of a call of the writer; a fault is counted.
    fn answer(&mut self, done: bool) -> Wrote
        ensures done { (result ≡ Wrote.Done) ↔ IsTrue done }
        ensures faults { CountsWrote result self.old.faults self.new.faults }
    {
        if done {
            return Wrote::Done;
        }
        self.faults = self.faults.saturating_add(1);
        Wrote::Failed
    }
}

impl<W: Write + Drop> Sink for StreamSink<W> {
    ghost seen = { λ s. record { written = None; passed = None; faults = s.faults } };

    ghost in_order = { λ _. tt };

    fn write(&mut self, bytes: &[u8]) -> Wrote {
        let done = self.writer.write_all(bytes).is_ok();
        self.answer(done)
    }

    fn flush(&mut self) -> Wrote {
        let done = self.writer.flush().is_ok();
        self.answer(done)
    }
}
