//! The run of an audit.
ghost use Rattle.rtmfp_lines.specs.Outside.{NothingFailed, outside};
ghost use Rattle.rtmfp_audit.specs.Audits.{AuditEnds, EndsWhere};
ghost use Rattle.rtmfp_audit.specs.Turning.{Finishes, PassesOn};

use crate::reading::{LINE, read_lines};
use crate::telling::tell;
use log_reading::Gathered;
use rtmfp_host::{Sink, Source, Wrote};
use rtmfp_lines::{Buffer, Status};
use std::alloc::Global;

/// The least that is read from the source at a time, and kept of it.
const PIECE: usize = 1 << 16;

/// Reads the logs of ends from the source, to its end, and writes whether they agree (own).
///
/// The text of logs has one line for each end, each event and each entry. A line that is outside
/// the grammar, or that doesn't stand where it may, ends the run with `BadScript` and its number,
/// and nothing is written, whatever stands before it. Else one line is written:
/// `agreed ends=N events=M kept=K`, with how many pairs of an end and a peer there are of which the
/// end keeps a session with the peer when all is over; or `refused line=L CAUSE`, with the line of
/// the first check that fails, and what is wrong there: `secrets`, `unlawful`, `not-honest` or
/// `not-fresh`. Then the status is `NotAgreed` of that line.
///
/// Where there is no memory for all of that the status is `Memory`, and nothing is written. The
/// sink has passed on what it held, unless the outside has failed.
pub fn run_audit<S: Source, K: Sink>(alloc: Global, source: &mut S, sink: &mut K) -> Status
    ensures { AuditEnds result
        (outside (S.seen source.old) (K.seen sink.old))
        (outside (S.seen source.new) (K.seen sink.new)) }
{
    let ended = audit_source(alloc, source, sink);
    finish(ended, sink)
}

/// Reads the logs of the source, and writes whether they agree.
fn audit_source<S: Source, K: Sink>(alloc: Global, source: &mut S, sink: &mut K) -> Status
    ensures { EndsWhere NothingFailed result
        (outside (S.seen source.old) (K.seen sink.old))
        (outside (S.seen source.new) (K.seen sink.new)) }
{
    let Ok(mut buffer) = Buffer::new(alloc, 2 * LINE + PIECE) else {
        return Status::Memory;
    };
    let mut gathered = Gathered::new(alloc);
    match read_lines(alloc, &mut gathered, &mut buffer, source, sink) {
        Status::Done => tell(alloc, &gathered, sink),
        other => other,
    }
}

/// Passes on what the sink still holds, unless the outside has failed.
fn finish<K: Sink>(ended: Status, sink: &mut K) -> Status
    ensures { Finishes ended result (K.seen sink.old) (K.seen sink.new) }
{
    match ended {
        Status::SinkFault => Status::SinkFault,
        Status::SourceFault => Status::SourceFault,
        other => pass_on(other, sink),
    }
}

/// Passes on what the sink still holds.
fn pass_on<K: Sink>(ended: Status, sink: &mut K) -> Status
    ensures { PassesOn ended result (K.seen sink.old) (K.seen sink.new) }
{
    match sink.flush() {
        Wrote::Done => ended,
        Wrote::Failed => Status::SinkFault,
    }
}
