//! Runs of the program that need no network.

use rtmfp_cli::{Status, run};
use rtmfp_host::{
    MemoryEntropy, MemoryLink, MemoryMoments, MemorySink, MemorySource, MemorySpawner, Sink, Source,
};
use std::alloc::{AllocError, Global};

/// A run by these words over a source and a sink. The other objects have nothing to give.
fn run_words<S: Source, K: Sink>(
    alloc: Global,
    words: &[String],
    source: &mut S,
    sink: &mut K,
) -> Status {
    run(
        alloc,
        words,
        &mut MemoryLink::new(alloc, Vec::new(alloc)),
        &mut MemoryMoments::new(Vec::new(alloc)),
        &mut MemoryEntropy::new(Vec::new(alloc)),
        source,
        sink,
        &mut MemorySpawner::new(alloc, Vec::new(alloc)),
    )
}

/// The words of a command, which stand in a text with blanks between them.
fn words_of(alloc: Global, command: &str) -> Result<Vec<String>, AllocError> {
    let mut words = Vec::new(alloc);
    for word in command.split(' ') {
        words.push(String::from_str(alloc, word)?)?;
    }
    Ok(words)
}

/// A run of a command over a source and a sink.
pub(crate) fn run_over<S: Source, K: Sink>(
    alloc: Global,
    command: &str,
    source: &mut S,
    sink: &mut K,
) -> Result<Status, AllocError> {
    let words = words_of(alloc, command)?;
    Ok(run_words(alloc, words.as_slice(), source, sink))
}

/// How a run of a command over a script ends, with what it wrote.
fn ran(alloc: Global, command: &str, script: String) -> Result<(Status, MemorySink), AllocError> {
    let mut source = MemorySource::new(script.into_bytes());
    let mut sink = MemorySink::new(alloc);
    let status = run_over(alloc, command, &mut source, &mut sink)?;
    Ok((status, sink))
}

/// How a run of a command over a script ends, and whether it writes this report.
pub(crate) fn played(
    alloc: Global,
    command: &str,
    script: String,
    report: &str,
) -> Result<(Status, bool), AllocError> {
    let (status, sink) = ran(alloc, command, script)?;
    Ok((status, sink.written() == Some(report.as_bytes())))
}

/// Whether bytes end with a text.
fn end_with(bytes: &[u8], end: &str) -> bool {
    let at = bytes.len().saturating_sub(end.len());
    bytes.get(at..) == Some(end.as_bytes())
}

/// How a run of a script ends, and whether its report ends with this.
pub(crate) fn played_to(
    alloc: Global,
    script: String,
    end: &str,
) -> Result<(Status, bool), AllocError> {
    let (status, sink) = ran(alloc, "replay", script)?;
    let written = match sink.written() {
        Some(bytes) => end_with(bytes, end),
        None => false,
    };
    Ok((status, written))
}
