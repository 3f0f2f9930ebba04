//! Sources over bytes in memory.
ghost use Rattle.std.specs.Prelude.{◌≡◌, ◌<◌, ◌≤◌, ◌↔◌, length, IsTrue, Some};
ghost use Rattle.rtmfp_host.specs.Faults.{CountsTaken};
ghost use Rattle.rtmfp_host.specs.Taking.{Takes};

use crate::plan::Plan;
use crate::{Source, Taken};

/// Bytes in memory. It never fails: its count of faults is 0.
#[derive(Drop)]
pub struct MemorySource {
    bytes: Vec<u8>,
    at: usize,
    asked_at: usize,
    piece: usize,
    ghost within: { at ≤ length bytes.items },
    ghost some_piece: { 0 < piece },
}

impl MemorySource {
    ghost use Rattle.rtmfp_host.specs.Memory.{source_asked, source_left};

    /// A source that gives these bytes, as many at a time as the reader asks for.
    pub fn new(bytes: Vec<u8>) -> MemorySource
        ensures { source_left result ≡ bytes.items }
    {
        MemorySource::in_pieces(bytes, usize::MAX)
    }

    /// A source that gives these bytes, at most `piece` at a time.
    pub fn in_pieces(bytes: Vec<u8>, piece: usize) -> MemorySource
        requires { 0 < piece }
        ensures { source_left result ≡ bytes.items }
    {
        MemorySource {
            bytes,
            at: 0,
            asked_at: 0,
            piece,
        }
    }

    /// A read that gives nothing.
    fn asked_in_vain(&mut self)
        ensures left { source_left self.new ≡ source_left self.old }
        ensures asked { source_asked self.new ≡ source_left self.old }
    {
        self.asked_at = self.at;
    }
}

impl Source for MemorySource {
    ghost use Rattle.rtmfp_host.specs.Memory.{source_seen};

    ghost seen = { source_seen };

    fn read(&mut self, buf: &mut [u8]) -> Taken {
        self.asked_at = self.at;
        let rest = &self.bytes[self.at..];
        let count = rest.len().min(self.piece).min(buf.len());
        if count == 0 {
            return Taken::End;
        }
        buf[..count].copy_from_slice(&rest[..count]);
        self.at += count;
        Taken::Done(count)
    }
}

/// Bytes in memory, and a list of calls that are to fail, counted from 1.
#[derive(Drop)]
pub struct FaultySource {
    source: MemorySource,
    plan: Plan,
    faults: u64,
}

impl FaultySource {
    ghost use Rattle.rtmfp_host.specs.Memory.{source_left, faulty_source_left, source_plan, source_faults};

    /// A source that gives what `source` gives, and whose calls with these numbers fail.
    pub fn new(source: MemorySource, failing: Vec<u64>) -> FaultySource
        ensures left { faulty_source_left result ≡ source_left source }
        ensures plan { source_plan result ≡ record { failing = failing.items; calls = 0 } }
        ensures faults { source_faults result ≡ 0 }
    {
        FaultySource {
            source,
            plan: Plan::new(failing),
            faults: 0,
        }
    }
}

impl Source for FaultySource {
    ghost use Rattle.rtmfp_host.specs.Memory.{faulty_source_asked, faulty_source_left, faulty_source_seen, source_plan, source_faults};
    ghost use Rattle.rtmfp_host.specs.Plan.{fails_now, after_call};

    ghost seen = { faulty_source_seen };

    fn read(&mut self, buf: &mut [u8]) -> Taken
        requires { 0 < length buf.old }
        ensures bytes { Takes (Some (faulty_source_left self.old))
            (Some (faulty_source_left self.new)) result buf.new }
        ensures asked { Some (faulty_source_asked self.new) ≡ Some (faulty_source_left self.old) }
        ensures faults { CountsTaken result (source_faults self.old) (source_faults self.new) }

        // It fails exactly where it was to.
        ensures fails { (result ≡ Taken.Failed) ↔ IsTrue (fails_now (source_plan self.old)) }
        ensures plan { source_plan self.new ≡ after_call (source_plan self.old) }
    {
        if self.plan.next_fails() {
            self.faults = self.faults.saturating_add(1);
            self.source.asked_in_vain();
            return Taken::Failed;
        }
        self.source.read(buf)
    }
}
