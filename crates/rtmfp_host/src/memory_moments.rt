//! A clock in memory.
ghost use Rattle.std.specs.Prelude.{◌≡◌, ◌≤◌, length, Some};

use crate::Moments;

/// Moments in memory. Where none is left it gives the last one again, and 0 where there was none.
#[derive(Drop)]
pub struct MemoryMoments {
    left: Vec<u64>,
    at: usize,
    last: u64,
    ghost within: { at ≤ length left.items },
}

impl MemoryMoments {
    ghost use Rattle.rtmfp_host.specs.InMemory.{moments_seen};

    /// A clock that gives these moments.
    pub fn new(left: Vec<u64>) -> MemoryMoments
        ensures { moments_seen result ≡ Some (record { left = left.items; last = 0 }) }
    {
        MemoryMoments {
            left,
            at: 0,
            last: 0,
        }
    }
}

impl Moments for MemoryMoments {
    ghost use Rattle.rtmfp_host.specs.InMemory.{moments_seen};

    ghost seen = { moments_seen };

    fn now(&mut self) -> u64 {
        if self.at < self.left.len() {
            self.last = self.left[self.at];
            self.at += 1;
        }
        self.last
    }
}
