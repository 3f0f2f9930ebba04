//! Where bytes come from.
ghost use Rattle.std.specs.Prelude.{◌≡◌, ◌<◌, length};
ghost use Rattle.rtmfp_host.specs.Faults.{CountsTaken};
ghost use Rattle.rtmfp_host.specs.Seen.{SourceSeen};
ghost use Rattle.rtmfp_host.specs.Taking.{Takes};

/// What one read gave.
#[derive(Clone, Copy, Debug, PartialEq, Eq)]
pub enum Taken {
    /// So many bytes, at least one, at the front of the buffer.
    Done(usize),
    /// No byte is left.
    End,
    /// The outside failed, and its count of faults has risen.
    Failed,
}

/// A source of bytes (own).
pub trait Source {
    /// The bytes that are left, and those that were left before the last read, where the source
    /// tells them; and how often it has failed, a count that stands still at the end of a `u64`.
    ghost seen: { Self → SourceSeen };

    /// Reads some bytes into the front of `buf`.
    fn read(&mut self, buf: &mut [u8]) -> Taken
        requires { 0 < length buf.old }
        ensures bytes { Takes (seen self.old).left (seen self.new).left result buf.new }
        ensures asked { (seen self.new).asked ≡ (seen self.old).left }
        ensures faults { CountsTaken result (seen self.old).faults (seen self.new).faults };
}
