//! A run over the lines of a source: each is read, done and its text written before the next, and
//! behind the last the ending.
ghost use Rattle.std.specs.Prelude.{◌≡◌, ◌*◌, ◌+◌, ◌-◌, ◌<◌, ◌≤◌, ◌^◌, length};
ghost use Rattle.rtmfp_cli.specs.Doing.{Holds, IsNext, ending_of, limit_of};
ghost use Rattle.rtmfp_lines.specs.Outside.{NothingFailed, outside};
ghost use Rattle.rtmfp_cli.specs.Script.{EndsWhere};
ghost use Rattle.rtmfp_cli.specs.Turning.{Closed, Concludes, EndsAs, Printed, Turned};
ghost use Rattle.rtmfp_play.specs.Journaling.{end_text};

use crate::doing::Doing;
use rtmfp_host::{Sink, Source, Wrote};
use rtmfp_lines::{Buffer, Next, Status, next_line};
use rtmfp_play::{Journaling, Said};
use rtmfp_text::Text;
use std::alloc::Global;

/// The most lines that a source may have.
const LINES: u64 = 1_000_000;

/// The least that is read from the source at a time, and kept of it.
const PIECE: usize = 1 << 16;

/// What one line did.
pub(crate) enum Turn {
    Went,
    /// No line more is done: with `Done`, since all were.
    Ended(Status),
}

/// Does one line, and writes its text.
fn do_line<K: Sink>(
    alloc: Global,
    doing: &mut Doing,
    line: &[u8],
    number: u64,
    text: &mut Text,
    sink: &mut K,
) -> Turn
    requires fits { length line.now ≤ limit_of doing.old }
    requires next { IsNext doing.old number }
    ensures printed { Printed result doing.old doing.new number line.now
        (K.seen sink.old) (K.seen sink.new) }
    ensures limit { limit_of doing.new ≡ limit_of doing.old }
    ensures next { result ≡ Turn.Went → number < 2 ^ 32 - 1 → IsNext doing.new (number + 1) }
{
    match doing.line(alloc, number, line, text) {
        Ok(Said::Text) => match sink.write(text.bytes()) {
            Wrote::Done => Turn::Went,
            Wrote::Failed => Turn::Ended(Status::SinkFault),
        },
        Ok(Said::Bad) => Turn::Ended(Status::BadScript(number)),
        Ok(Said::Forged) => Turn::Ended(Status::Forged(number)),
        Err(_) => Turn::Ended(Status::Memory),
    }
}

/// Reads and does the next line.
fn next_turn<S: Source, K: Sink>(
    alloc: Global,
    doing: &mut Doing,
    number: u64,
    buffer: &mut Buffer,
    text: &mut Text,
    source: &mut S,
    sink: &mut K,
) -> Turn
    requires room { 2 * limit_of doing.old < buffer.old.capacity }
    requires next { IsNext doing.old number }
    ensures turned { Turned result doing.old doing.new number
        (outside (S.seen source.old) (K.seen sink.old))
        (outside (S.seen source.new) (K.seen sink.new))
        buffer.old.bytes buffer.new.bytes }
    ensures capacity { buffer.new.capacity ≡ buffer.old.capacity }
    ensures limit { limit_of doing.new ≡ limit_of doing.old }
    ensures next { result ≡ Turn.Went → number < 2 ^ 32 - 1 → IsNext doing.new (number + 1) }
{
    match next_line(buffer, doing.limit(), source, sink) {
        Next::Line(len) => {
            let turn = do_line(alloc, doing, &buffer.bytes()[..len], number, text, sink);
            buffer.consume(len + 1);
            turn
        }
        Next::Last => match do_line(alloc, doing, buffer.bytes(), number, text, sink) {
            Turn::Went => Turn::Ended(Status::Done),
            Turn::Ended(status) => Turn::Ended(status),
        },
        Next::End => Turn::Ended(Status::Done),
        Next::TooLong => Turn::Ended(Status::BadScript(number)),
        Next::SourceFailed => Turn::Ended(Status::SourceFault),
        Next::SinkFailed => Turn::Ended(Status::SinkFault),
    }
}

/// Whether the source ends behind the last line that it may have.
fn close_script<S: Source, K: Sink>(buffer: &mut Buffer, source: &mut S, sink: &mut K) -> Status
    requires { 0 < buffer.old.capacity }
    ensures { Closed result
        (outside (S.seen source.old) (K.seen sink.old))
        (outside (S.seen source.new) (K.seen sink.new))
        buffer.old.bytes }
{
    // A line of no byte is one too many, so that one byte suffices.
    match next_line(buffer, 0, source, sink) {
        Next::End => Status::Done,
        Next::Line(_) => Status::ScriptLong,
        Next::Last => Status::ScriptLong,
        Next::TooLong => Status::ScriptLong,
        Next::SourceFailed => Status::SourceFault,
        Next::SinkFailed => Status::SinkFault,
    }
}

/// Writes the ending, where all lines were done.
fn conclude<K: Sink>(status: Status, doing: &Doing, text: &mut Text, sink: &mut K) -> Status
    ensures { Concludes status result (ending_of doing.now) (K.seen sink.old) (K.seen sink.new) }
{
    match status {
        Status::Done => write_ending(doing, text, sink),
        other => other,
    }
}

/// Writes the ending.
fn write_ending<K: Sink>(doing: &Doing, text: &mut Text, sink: &mut K) -> Status
    ensures { EndsAs result (ending_of doing.now) (K.seen sink.old) (K.seen sink.new) }
{
    match doing {
        Doing::Showing => Status::Done,
        Doing::Playing(_) => Status::Done,
        Doing::Journaling(journaling) => write_rest(journaling, text, sink),
    }
}

/// Writes what of the logs isn't written yet.
fn write_rest<K: Sink>(journaling: &Journaling, text: &mut Text, sink: &mut K) -> Status
    ensures { EndsAs result (end_text journaling.now.world) (K.seen sink.old) (K.seen sink.new) }
{
    text.clear();
    match journaling.push_rest(text) {
        Ok(()) => match sink.write(text.bytes()) {
            Wrote::Done => Status::Done,
            Wrote::Failed => Status::SinkFault,
        },
        Err(_) => Status::Memory,
    }
}

/// Does each line of the source.
pub(crate) fn run_script<S: Source, K: Sink>(
    alloc: Global,
    mut doing: Doing,
    source: &mut S,
    sink: &mut K,
) -> Status
    requires next { IsNext doing 1 }
    requires holds { Holds doing }
    ensures { EndsWhere NothingFailed doing result
        (outside (S.seen source.old) (K.seen sink.old))
        (outside (S.seen source.new) (K.seen sink.new)) }
{
    let Ok(mut buffer) = Buffer::new(alloc, 2 * doing.limit() + PIECE) else {
        return Status::Memory;
    };
    let mut text = Text::new(alloc);
    for before in 0..LINES {
        match next_turn(
            alloc,
            &mut doing,
            before + 1,
            &mut buffer,
            &mut text,
            source,
            sink,
        ) {
            Turn::Went => {}
            Turn::Ended(status) => return conclude(status, &doing, &mut text, sink),
        }
    }
    let status = close_script(&mut buffer, source, sink);
    conclude(status, &doing, &mut text, sink)
}
