//! Random sources in memory.
ghost use Rattle.std.specs.Prelude.{◌≡◌, ◌≤◌, ◌↔◌, IsTrue, length, Some};
ghost use Rattle.rtmfp_host.specs.Faults.{CountsDrawn};
ghost use Rattle.rtmfp_host.specs.Drawing.{DrawsFrom};

use crate::plan::Plan;
use crate::{Drawn, Entropy};

/// Blocks in memory. Where none is left it gives zeros. It never fails: its count of faults is 0.
#[derive(Drop)]
pub struct MemoryEntropy {
    left: Vec<[u8; 64]>,
    at: usize,
    ghost within: { at ≤ length left.items },
}

impl MemoryEntropy {
    ghost use Rattle.rtmfp_host.specs.InMemory.{entropy_blocks};

    /// A source that gives these blocks.
    pub fn new(left: Vec<[u8; 64]>) -> MemoryEntropy
        ensures { entropy_blocks result ≡ Some left.items }
    {
        MemoryEntropy { left, at: 0 }
    }
}

impl Entropy for MemoryEntropy {
    ghost use Rattle.rtmfp_host.specs.InMemory.{entropy_seen};

    ghost seen = { entropy_seen };

    fn draw(&mut self, out: &mut [u8; 64]) -> Drawn {
        if self.at < self.left.len() {
            *out = self.left[self.at];
            self.at += 1;
            return Drawn::Done;
        }
        *out = [0; 64];
        Drawn::Done
    }
}

/// Blocks in memory, and a list of draws that are to fail, counted from 1. A draw that fails takes
/// no block.
#[derive(Drop)]
pub struct FaultyEntropy {
    entropy: MemoryEntropy,
    plan: Plan,
    faults: u64,
}

impl FaultyEntropy {
    ghost use Rattle.rtmfp_host.specs.InMemory.{entropy_blocks, faulty_entropy_blocks, entropy_plan, entropy_faults};

    /// A source that gives what `entropy` gives, and whose draws with these numbers fail.
    pub fn new(entropy: MemoryEntropy, failing: Vec<u64>) -> FaultyEntropy
        ensures blocks { faulty_entropy_blocks result ≡ entropy_blocks entropy }
        ensures plan { entropy_plan result ≡ record { failing = failing.items; calls = 0 } }
        ensures faults { entropy_faults result ≡ 0 }
    {
        FaultyEntropy {
            entropy,
            plan: Plan::new(failing),
            faults: 0,
        }
    }
}

impl Entropy for FaultyEntropy {
    ghost use Rattle.rtmfp_host.specs.InMemory.{faulty_entropy_blocks, faulty_entropy_seen, entropy_plan, entropy_faults};
    ghost use Rattle.rtmfp_host.specs.Plan.{fails_now, after_call};

    ghost seen = { faulty_entropy_seen };

    fn draw(&mut self, out: &mut [u8; 64]) -> Drawn
        ensures block { DrawsFrom (faulty_entropy_blocks self.old)
            (faulty_entropy_blocks self.new) result out.new }
        ensures faults { CountsDrawn result (entropy_faults self.old) (entropy_faults self.new) }

        // It fails exactly where it was to.
        ensures fails { (result ≡ Drawn.Failed) ↔ IsTrue (fails_now (entropy_plan self.old)) }
        ensures plan { entropy_plan self.new ≡ after_call (entropy_plan self.old) }
    {
        if self.plan.next_fails() {
            self.faults = self.faults.saturating_add(1);
            return Drawn::Failed;
        }
        self.entropy.draw(out)
    }
}
