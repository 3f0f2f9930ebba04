//! The lines of a source, each read and taken before the next.
ghost use Rattle.std.specs.Prelude.{◌≡◌, ◌*◌, ◌<◌, []};
ghost use Rattle.audit_text.specs.Grammar.{line_limit};
ghost use Rattle.log_reading.specs.Gathered.{nothing_read};
ghost use Rattle.rtmfp_lines.specs.Outside.{outside};
ghost use Rattle.rtmfp_audit.specs.Turning.{Reads, Took, Turned};

use audit_text::{LogLineRefusal, read_log_line};
use log_reading::{Gathered, LineFault};
use rtmfp_host::{Sink, Source};
use rtmfp_lines::{Buffer, Next, Status, next_line};
use std::alloc::Global;

/// The most bytes of a line without its LF (own).
pub(crate) const LINE: usize = 8192;

/// What one line did.
pub(crate) enum Turn {
    /// It was taken.
    Went,
    /// It ended the run so.
    Ended(Status),
}

/// Reads a line that stands behind those that were taken, and takes it.
fn take_line(alloc: Global, gathered: &mut Gathered, line: &[u8]) -> Turn
    ensures { Took result line.now gathered.old gathered.new }
{
    // There are at most 100,000 lines, and one more.
    let number = u64::from(gathered.lines()) + 1;
    match read_log_line(alloc, line) {
        Ok(said) => match gathered.take(said) {
            Ok(()) => Turn::Went,
            Err(LineFault::Misplaced) => Turn::Ended(Status::BadScript(number)),
            Err(LineFault::Memory) => Turn::Ended(Status::Memory),
        },
        Err(LogLineRefusal::BadLine) => Turn::Ended(Status::BadScript(number)),
        Err(LogLineRefusal::Memory) => Turn::Ended(Status::Memory),
    }
}

/// Reads and takes the next line.
fn next_turn<S: Source, K: Sink>(
    alloc: Global,
    gathered: &mut Gathered,
    buffer: &mut Buffer,
    source: &mut S,
    sink: &mut K,
) -> Turn
    requires { 2 * line_limit < buffer.old.capacity }
    ensures turned { Turned result gathered.old gathered.new
        (outside (S.seen source.old) (K.seen sink.old))
        (outside (S.seen source.new) (K.seen sink.new))
        buffer.old.bytes buffer.new.bytes }
    ensures capacity { buffer.new.capacity ≡ buffer.old.capacity }
{
    match next_line(buffer, LINE, source, sink) {
        Next::Line(len) => {
            let turn = take_line(alloc, gathered, &buffer.bytes()[..len]);
            buffer.consume(len + 1);
            turn
        }
        Next::Last => match take_line(alloc, gathered, buffer.bytes()) {
            Turn::Went => Turn::Ended(Status::Done),
            Turn::Ended(status) => Turn::Ended(status),
        },
        Next::End => Turn::Ended(Status::Done),
        Next::TooLong => Turn::Ended(Status::BadScript(u64::from(gathered.lines()) + 1)),
        Next::SourceFailed => Turn::Ended(Status::SourceFault),
        Next::SinkFailed => Turn::Ended(Status::SinkFault),
    }
}

/// Reads all lines of the source, and takes each.
pub(crate) fn read_lines<S: Source, K: Sink>(
    alloc: Global,
    gathered: &mut Gathered,
    buffer: &mut Buffer,
    source: &mut S,
    sink: &mut K,
) -> Status
    requires nothing { gathered.old ≡ nothing_read }
    requires empty { buffer.old.bytes ≡ [] }
    requires room { 2 * line_limit < buffer.old.capacity }
    ensures { Reads result gathered.new
        (outside (S.seen source.old) (K.seen sink.old))
        (outside (S.seen source.new) (K.seen sink.new)) }
{
    'lines: loop {
        match next_turn(alloc, gathered, buffer, source, sink) {
            Turn::Went => {}
            Turn::Ended(status) => return status,
        }
    }
}
