//! Random bytes.
ghost use Rattle.rtmfp_host.specs.Faults.{CountsDrawn};
ghost use Rattle.rtmfp_host.specs.Drawing.{EntropySeen, DrawsFrom};

/// What one draw did.
#[derive(Clone, Copy, Debug, PartialEq, Eq)]
pub enum Drawn {
    /// The block is filled.
    Done,
    /// The outside failed, and its count of faults has risen.
    Failed,
}

/// A random source (own).
pub trait Entropy {
    /// The blocks of 64 bytes that it has still to give, where it tells them; and how often it has
    /// failed, a count that stands still at the end of a `u64`. A source that has told may stop
    /// telling; it doesn't begin again.
    ghost seen: { Self → EntropySeen };

    /// Draws a block.
    fn draw(&mut self, out: &mut [u8; 64]) -> Drawn
        ensures block { DrawsFrom (seen self.old).blocks (seen self.new).blocks result out.new }
        ensures faults { CountsDrawn result (seen self.old).faults (seen self.new).faults };
}
