//! Sinks that keep the bytes in memory.
ghost use Rattle.std.specs.Prelude.{◌≡◌, ◌↔◌, [], IsTrue, Some, take};
ghost use Rattle.rtmfp_host.specs.Faults.{CountsWrote};
ghost use Rattle.rtmfp_host.specs.Writing.{Appends, Passes, Writes};
ghost use Rattle.std.specs.Option.{option_map};

use crate::plan::Plan;
use crate::{Sink, Wrote};
use std::alloc::Global;

/// Bytes in memory. It never fails: its count of faults is 0. It tells the bytes that it took for
/// as long as there was memory to keep them all.
#[derive(Drop)]
pub struct MemorySink {
    bytes: Vec<u8>,
    whole: bool,
}

impl MemorySink {
    ghost use Rattle.rtmfp_host.specs.Memory.{sink_written};

    /// A sink that has taken nothing.
    pub fn new(alloc: Global) -> MemorySink
        ensures { sink_written result ≡ Some [] }
    {
        MemorySink {
            bytes: Vec::new(alloc),
            whole: true,
        }
    }

    /// The bytes that were taken; none where there was no memory to keep them.
    pub fn written(&self) -> Option<&[u8]>
        ensures { option_map (λ bytes. bytes.now) result ≡ sink_written self.now }
    {
        if self.whole {
            Some(self.bytes.as_slice())
        } else {
            None
        }
    }
}

impl Sink for MemorySink {
    ghost use Rattle.rtmfp_host.specs.Memory.{sink_seen, sink_written};
    ghost use Rattle.rtmfp_host.specs.Parts.{first_of_all};

    ghost seen = { sink_seen };

    ghost in_order = { λ s. first_of_all (sink_written s) };

    fn write(&mut self, bytes: &[u8]) -> Wrote {
        self.whole = self.whole && self.bytes.extend_from_slice(bytes).is_ok();
        Wrote::Done
    }

    fn flush(&mut self) -> Wrote {
        Wrote::Done
    }
}

/// Bytes in memory, and two lists of calls that are to fail, each counted from 1. It holds back
/// what it took until a flush that is done. A write that fails takes the first of its bytes, a
/// flush that fails passes on nothing.
#[derive(Drop)]
pub struct FaultySink {
    sink: MemorySink,
    passed: usize,
    writes: Plan,
    flushes: Plan,
    front: usize,
    faults: u64,
}

impl FaultySink {
    ghost use Rattle.rtmfp_host.specs.Memory.{faulty_sink_passed, faulty_sink_written, flush_plan, front_count, passed_count, sink_faults, write_plan};

    /// A sink that has taken nothing, and whose writes and flushes with these numbers fail. A write
    /// that fails takes at most `front` bytes.
    pub fn new(alloc: Global, writes: Vec<u64>, flushes: Vec<u64>, front: usize) -> FaultySink
        ensures written { faulty_sink_written result ≡ Some [] }
        ensures passed { passed_count result ≡ 0 }
        ensures writes { write_plan result ≡ record { failing = writes.items; calls = 0 } }
        ensures flushes { flush_plan result ≡ record { failing = flushes.items; calls = 0 } }
        ensures front { front_count result ≡ front }
        ensures faults { sink_faults result ≡ 0 }
    {
        FaultySink {
            sink: MemorySink::new(alloc),
            passed: 0,
            writes: Plan::new(writes),
            flushes: Plan::new(flushes),
            front,
            faults: 0,
        }
    }

    /// The bytes that were taken; none where there was no memory to keep them.
    pub fn written(&self) -> Option<&[u8]>
        ensures { option_map (λ bytes. bytes.now) result ≡ faulty_sink_written self.now }
    {
        self.sink.written()
    }

    /// How many of these were passed on.
    pub fn passed(&self) -> usize
        ensures { result ≡ passed_count self.now }
    {
        self.passed
    }
}

impl Sink for FaultySink {
    ghost use Rattle.rtmfp_host.specs.Memory.{faulty_sink_passed, faulty_sink_seen, faulty_sink_written, flush_plan, front_count, passed_count, sink_faults, write_plan};
    ghost use Rattle.rtmfp_host.specs.Plan.{fails_now, after_call};
    ghost use Rattle.rtmfp_host.specs.Parts.{first_where};

    ghost seen = { faulty_sink_seen };

    ghost in_order = { λ s. first_where s.sink.whole s.passed s.sink.bytes.items };

    fn write(&mut self, bytes: &[u8]) -> Wrote
        ensures bytes { Writes (faulty_sink_written self.old) (faulty_sink_written self.new) result
            bytes.now }
        ensures faults { CountsWrote result (sink_faults self.old) (sink_faults self.new) }

        // It fails exactly where it was to, and takes the first of the bytes then.
        ensures fails { (result ≡ Wrote.Failed) ↔ IsTrue (fails_now (write_plan self.old)) }
        ensures front { result ≡ Wrote.Failed →
            Appends (faulty_sink_written self.old) (faulty_sink_written self.new)
            (take (front_count self.old) bytes.now) }
        ensures writes { write_plan self.new ≡ after_call (write_plan self.old) }
        ensures flushes { flush_plan self.new ≡ flush_plan self.old }
        ensures passed { passed_count self.new ≡ passed_count self.old }
    {
        if self.writes.next_fails() {
            self.faults = self.faults.saturating_add(1);
            let _ = self.sink.write(first_of(bytes, self.front));
            return Wrote::Failed;
        }
        self.sink.write(bytes)
    }

    fn flush(&mut self) -> Wrote
        ensures bytes { Appends (faulty_sink_written self.old) (faulty_sink_written self.new) [] }
        ensures passed { Passes result (faulty_sink_written self.new)
            (faulty_sink_passed self.new) }
        ensures faults { CountsWrote result (sink_faults self.old) (sink_faults self.new) }

        // It fails exactly where it was to, and passes on nothing then.
        ensures fails { (result ≡ Wrote.Failed) ↔ IsTrue (fails_now (flush_plan self.old)) }
        ensures nothing { result ≡ Wrote.Failed → passed_count self.new ≡ passed_count self.old }
        ensures writes { write_plan self.new ≡ write_plan self.old }
        ensures flushes { flush_plan self.new ≡ after_call (flush_plan self.old) }
    {
        if self.flushes.next_fails() {
            self.faults = self.faults.saturating_add(1);
            return Wrote::Failed;
        }
        self.passed = self.sink.bytes.len();
        Wrote::Done
    }
}

/// The first of the bytes, so many at most.
fn first_of(bytes: &[u8], count: usize) -> &[u8]
    ensures { result.now ≡ take count bytes.now }
{
    match bytes.get(..count) {
        Some(front) => front,
        None => bytes,
    }
}
