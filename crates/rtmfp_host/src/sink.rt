//! Where bytes go.
ghost use Rattle.std.specs.Prelude.{[]};
ghost use Rattle.rtmfp_host.specs.Faults.{CountsWrote};
ghost use Rattle.rtmfp_host.specs.Seen.{SinkSeen};
ghost use Rattle.rtmfp_host.specs.Writing.{Writes, Appends, IsFirstPart, Passes};

/// What one write did.
#[derive(Clone, Copy, Debug, PartialEq, Eq)]
pub enum Wrote {
    /// All the bytes were taken.
    Done,
    /// The outside failed after a prefix of the bytes, and its count of faults has risen.
    Failed,
}

/// A sink of bytes (own). It may hold back what it took until it is flushed.
pub trait Sink {
    /// The bytes that were taken, and those of them that were passed on, where the sink tells them;
    /// and how often it has failed, a count that stands still at the end of a `u64`. A sink that
    /// has told its bytes may stop telling; it doesn't begin again.
    ghost seen: { Self → SinkSeen };

    /// Takes the bytes, all of them or a prefix.
    fn write(&mut self, bytes: &[u8]) -> Wrote
        ensures bytes { Writes (seen self.old).written (seen self.new).written result bytes.now }
        ensures faults { CountsWrote result (seen self.old).faults (seen self.new).faults };

    /// Passes on all that was taken. It takes nothing.
    fn flush(&mut self) -> Wrote
        ensures bytes { Appends (seen self.old).written (seen self.new).written [] }
        ensures passed { Passes result (seen self.new).written (seen self.new).passed }
        ensures faults { CountsWrote result (seen self.old).faults (seen self.new).faults };

    /// What was passed on is a first part of what was taken.
    ghost in_order: { (s : Self) → IsFirstPart (seen s).passed (seen s).written };
}
