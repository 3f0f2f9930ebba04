//! Lines read from a source in whatever pieces it gives.
ghost use Rattle.std.specs.Prelude.{◌≡◌, ◌+◌, ◌*◌, ◌^◌, ◌<◌, ◌≤◌, [], length, take, drop, MatchOption};
ghost use Rattle.rtmfp_host.specs.Writing.{Appends};
ghost use Rattle.rtmfp_lines.specs.Lines.{NoLf};
ghost use Rattle.rtmfp_lines.specs.Outside.{outside};
ghost use Rattle.rtmfp_lines.specs.Reading.{Asks, Finds, IsFirstLf, NextFaults, ReadsLine, Splits};

use crate::buffer::Buffer;
use memchr::memchr;
use rtmfp_host::{Sink, Source, Taken, Wrote};

/// What stands in front of some bytes.
enum Found {
    /// A line of so many bytes, and its LF.
    Line(usize),
    /// More bytes without LF than a line may have.
    TooLong,
    /// A part of a line.
    More,
}

/// What reading a line gave.
pub enum Next {
    /// A line of so many bytes stands in front of the buffer, and its LF behind it.
    Line(usize),
    /// A last line without LF is all that the buffer holds, and nothing follows.
    Last,
    /// There is no more line.
    End,
    /// The next line is longer than a line may be.
    TooLong,
    /// The source failed.
    SourceFailed,
    /// The sink failed to pass on what it had taken.
    SinkFailed,
}

/// The index of the first LF.
fn first_lf(bytes: &[u8]) -> Option<usize>
    ensures { IsFirstLf bytes.now result }
{
    memchr(b'\n', bytes)
}

/// The first line of a text, without its LF, and what stands behind it; nothing where there is no
/// byte. A last line without LF is a line.
pub fn first_line(text: &[u8]) -> Option<(&[u8], &[u8])>
    ensures { MatchOption result (text.now ≡ []) (λ p. Splits text.now p.0.now p.1.now) }
{
    if text.is_empty() {
        return None;
    }
    match first_lf(text) {
        Some(end) => {
            let (line, _) = text.split_at(end);
            let (_, rest) = text.split_at(end + 1);
            Some((line, rest))
        }
        None => Some(text.split_at(text.len())),
    }
}

/// The index of the first LF behind the first `scanned` bytes, counted from there.
fn first_lf_behind(bytes: &[u8], scanned: usize) -> Option<usize>
    requires { scanned ≤ length bytes.now }
    ensures { IsFirstLf (drop scanned bytes.now) result }
{
    first_lf(&bytes[scanned..])
}

/// Looks for the end of the first line. The first `scanned` bytes have no LF.
fn find_line(bytes: &[u8], scanned: usize, limit: usize) -> Found
    requires within { scanned ≤ length bytes.now }
    requires none { NoLf (take scanned bytes.now) }
    requires limit { limit < 2 ^ 32 }
    ensures { Finds limit bytes.now result }
{
    match first_lf_behind(bytes, scanned) {
        Some(i) if scanned + i <= limit => Found::Line(scanned + i),
        None if bytes.len() <= limit => Found::More,
        _ => Found::TooLong,
    }
}

/// Reads on until a line of at most `limit` bytes stands in front of the buffer. The sink passes on
/// what it holds before the source is asked, which may wait.
pub fn next_line<S: Source, K: Sink>(
    buffer: &mut Buffer,
    limit: usize,
    source: &mut S,
    sink: &mut K,
) -> Next
    requires capacity { 2 * limit < buffer.old.capacity }
    requires limit { limit < 2 ^ 32 }
    ensures read { ReadsLine limit (S.seen source.old).left (S.seen source.new).left result
        buffer.old.bytes buffer.new.bytes }
    ensures written { Appends (K.seen sink.old).written (K.seen sink.new).written [] }
    ensures capacity { buffer.new.capacity ≡ buffer.old.capacity }
    ensures asks { Asks limit (S.seen source.old) (S.seen source.new) buffer.old.bytes
        buffer.new.bytes }
    ensures faults { NextFaults result
        (outside (S.seen source.old) (K.seen sink.old))
        (outside (S.seen source.new) (K.seen sink.new)) }
{
    let mut scanned = 0;
    'reading: loop {
        match find_line(buffer.bytes(), scanned, limit) {
            Found::Line(len) => return Next::Line(len),
            Found::TooLong => return Next::TooLong,
            Found::More => {}
        }
        scanned = buffer.bytes().len();
        if let Wrote::Failed = sink.flush() {
            return Next::SinkFailed;
        }
        match buffer.fill(source) {
            Taken::Done(_) => {}
            Taken::End if scanned == 0 => return Next::End,
            Taken::End => return Next::Last,
            Taken::Failed => return Next::SourceFailed,
        }
    }
}
