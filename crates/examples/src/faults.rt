//! A script that is played with one of its reads, writes or flushes failing, each in turn, as a
//! table in the crate's `data`. How such a text is written stands at its head.

use crate::running::run_over;
use rtmfp_cli::Status;
use rtmfp_host::{FaultySink, FaultySource, MemorySource};
use std::alloc::{AllocError, Global};
use std::io;

/// How many bytes a read gives at most.
const PIECE: usize = 64;

/// How many bytes a write takes that fails.
const FRONT: usize = 7;

/// The word of a row at this place.
fn word(row: &str, index: usize) -> &str {
    row.split(' ').nth(index).unwrap_or("")
}

/// The number of a row at this place.
fn number(row: &str, index: usize) -> usize {
    word(row, index).parse::<usize>().unwrap_or(0)
}

/// The calls that are to fail, where the row names one of this kind.
fn failing(alloc: Global, row: &str, kind: &str) -> Result<Vec<u64>, AllocError> {
    let mut calls = Vec::new(alloc);
    if word(row, 0) == kind {
        calls.push(number(row, 1) as u64)?;
    }
    Ok(calls)
}

fn source_of(alloc: Global, row: &str, script: &str) -> Result<FaultySource, AllocError> {
    let failing = failing(alloc, row, "read")?;
    let bytes = String::from_str(alloc, script)?.into_bytes();
    Ok(FaultySource::new(MemorySource::in_pieces(bytes, PIECE), failing))
}

fn sink_of(alloc: Global, row: &str) -> Result<FaultySink, AllocError> {
    let writes = failing(alloc, row, "write")?;
    let flushes = failing(alloc, row, "flush")?;
    Ok(FaultySink::new(alloc, writes, flushes, FRONT))
}

/// Whether a row says this status.
fn says_status(row: &str, status: Status) -> bool {
    match status {
        Status::Done => word(row, 2) == "done",
        Status::SourceFault => word(row, 2) == "source-fault",
        Status::SinkFault => word(row, 2) == "sink-fault",
        _ => false,
    }
}

/// The first lines of a report, and so many bytes of the next.
fn front_of(report: &str, lines: usize, bytes: usize) -> Option<&[u8]> {
    let mut length = bytes;
    for line in report.lines().take(lines) {
        length = length.saturating_add(line.len()).saturating_add(1);
    }
    report.as_bytes().get(..length)
}

/// Whether a sink was given what a row says, all of which was passed on unless the sink failed.
fn says_written(row: &str, report: &str, status: Status, sink: &FaultySink) -> bool {
    match front_of(report, number(row, 3), number(row, 4)) {
        Some(front) => {
            let passed = status == Status::SinkFault || sink.passed() == front.len();
            passed && sink.written() == Some(front)
        }
        None => false,
    }
}

/// How a run of a script ends, of which a call fails as a row says.
fn status_of(
    alloc: Global,
    row: &str,
    script: &str,
    sink: &mut FaultySink,
) -> Result<Status, AllocError> {
    let mut source = source_of(alloc, row, script)?;
    run_over(alloc, "replay", &mut source, sink)
}

/// Whether a run of a script ends as a row says.
fn is_row_so(alloc: Global, row: &str, script: &str, report: &str) -> Result<bool, AllocError> {
    let mut sink = sink_of(alloc, row)?;
    let status = status_of(alloc, row, script, &mut sink)?;
    Ok(says_status(row, status) && says_written(row, report, status, &sink))
}

/// Whether a line of a table is so.
fn is_line_so(alloc: Global, line: &str, script: &str, report: &str) -> Result<bool, AllocError> {
    if line.starts_with('#') {
        return Ok(true);
    }
    is_row_so(alloc, line, script, report)
}

/// The first row of a table that isn't so.
fn first_wrong<'a>(
    alloc: Global,
    table: &'a str,
    script: &str,
    report: &str,
) -> Result<Option<&'a str>, AllocError> {
    for line in table.lines() {
        if !is_line_so(alloc, line, script, report)? {
            return Ok(Some(line));
        }
    }
    Ok(None)
}

/// Tells of a table whether it is so.
pub(crate) fn tell_faults(
    rt: &HostRuntime,
    name: &str,
    table: &str,
    script: &str,
    report: &str,
) -> io::Result<()> {
    match first_wrong(rt.alloc(), table, script, report)? {
        Some(row) => println!(rt; "{name}.faults isn't so: {row}"),
        None => println!(rt; "{name}.faults is so"),
    }
}
