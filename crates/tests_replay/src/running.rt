//! Runs of the program that need no network.

use rtmfp_cli::{Status, run};
use rtmfp_host::{MemoryEntropy, MemoryLink, MemoryMoments, MemorySpawner, Sink, Source};
use std::alloc::Global;

/// A run over a source and a sink. The other objects have nothing to give.
pub(crate) fn run_over<S: Source, K: Sink>(
    alloc: Global,
    words: &[String],
    source: &mut S,
    sink: &mut K,
) -> Status {
    run(
        alloc,
        words,
        &mut MemoryLink::new(alloc, Vec::new(alloc)),
        &mut MemoryMoments::new(Vec::new(alloc)),
        &mut MemoryEntropy::new(Vec::new(alloc)),
        source,
        sink,
        &mut MemorySpawner::new(alloc, Vec::new(alloc)),
    )
}
