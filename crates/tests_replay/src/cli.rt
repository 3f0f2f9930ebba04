//! How a run ends at the edges of its source and its sink, and what ends it early.

ghost use Rattle.std.specs.Prelude.{◌<◌};

use crate::running::run_over;
use rtmfp_cli::Status;
use rtmfp_host::{FaultySink, FaultySource, MemorySink, MemorySource};
use std::alloc::{AllocError, Global};
use std::test::Fail;

/// Rows: how a run ends, its words, the call that is to fail, its input, what it has written, and
/// how many bytes of that it has passed on. In the texts `~` stands for the end of a line and `^`
/// for a carriage return, and `forge` for the script and the text below. The input comes one byte
/// at a time where the third field says so. A write that fails takes so many of its bytes.
///
/// `done`: a last line without an end is done, too. Behind a bad line nothing is read. `flush 2` is
/// the flush before the read that finds the end, and `flush 3` the last one. The text before a bad
/// line is passed on, and where that fails it is the sink's fault. A read that fails isn't tried
/// again; the text so far is passed on before it. The datagram that is injected was made apart from
/// this program: a plain packet that opens, and that nobody sent. The lines of generated runs are
/// what the plain program of `scripts/baseline` prints, which was written apart from this one. Of a
/// journal without an event the lines of its ends are written once the source is at its end.
const ROWS: &str = "done|show|-|~|bad empty~|10
sink-fault|show|flush 2|~|bad empty~|0
sink-fault|show|flush 3|~|bad empty~|10
bad-script 2|show|-|~zz~|bad empty~|10
sink-fault|show|flush 2|~zz~|bad empty~|0
sink-fault|show|write 2 3|~~|bad empty~bad|0
source-fault|show|read 2|~03|bad empty~|10
forged 4|replay|-|forge|forge|67
sink-fault|replay|flush 2|forge|forge|0
sink-fault|replay|write 3 11|forge|3 a started|0
source-fault|replay|read 1|forge||0
done|show|bytes|~~|bad empty~bad empty~|20
done|show|-|||0
bad-script 1|show|-|03 ff||0
bad-script 1|show|read 2|zz~||0
bad-script 1|show|-|-~||0
bad-script 1|show|-|030~||0
bad-script 2|show|-|~03^~|bad empty~|10
sink-fault|show|write 1 0|0330000100~||0
source-fault|show|read 1|0330000100~||0
bad-script 1|show|-|03zz~||0
bad-words|play|-|~||0
bad-words|show show|-|~||0
bad-words|Show|-|~||0
bad-script 4|replay|-|# a comment~~end a 1 1 0123456789abcdefx~deliver 1 a 10.0.0.1:1935||0
bad-script 2|replay|-|at 5~at 4~||0
bad-script 4|replay|-|end a 65536 4096 The quick brown fox jumps over the lazy dog~end b 65536 4096 The quick brown fox jumps over the lazy dog.~open a b 10.0.0.2:1935~deliver 99 b 10.0.0.1:1935~|forge|67
bad-script 4|replay|-|end i 65536 4096 abcdbcdecdefdefgefghfghighijhijkijkljklmklmnlmnomnopnopq~end a 65536 4096 The quick brown fox jumps over the lazy dog~end b 65536 4096 The quick brown fox jumps over the lazy dog.~redirect i b~||0
bad-script 4|replay|-|end i 65536 4096 abcdbcdecdefdefgefghfghighijhijkijkljklmklmnlmnomnopnopq~end a 65536 4096 The quick brown fox jumps over the lazy dog~end b 65536 4096 The quick brown fox jumps over the lazy dog.~redirect i b 10.3.0.1:1 10.3.0.2:1 10.3.0.3:1 10.3.0.4:1 10.3.0.5:1 10.3.0.6:1 10.3.0.7:1 10.3.0.8:1 10.3.0.9:1 10.3.0.10:1 10.3.0.11:1 10.3.0.12:1 10.3.0.13:1 10.3.0.14:1 10.3.0.15:1 10.3.0.16:1 10.3.0.17:1~||0
bad-script 4|replay|-|end i 65536 4096 abcdbcdecdefdefgefghfghighijhijkijkljklmklmnlmnomnopnopq~end a 65536 4096 The quick brown fox jumps over the lazy dog~end b 65536 4096 The quick brown fox jumps over the lazy dog.~redirect i b 10.3.0.1:1 10.3.0.1:1 10.3.0.1:1 10.3.0.1:1 10.3.0.1:1 10.3.0.1:1 10.3.0.1:1 10.3.0.1:1 10.3.0.1:1 10.3.0.1:1 10.3.0.1:1 10.3.0.1:1 10.3.0.1:1 10.3.0.1:1 10.3.0.1:1 10.3.0.1:1 10.3.0.1:1~||0
forged 3|replay|-|end a 65536 4096 The quick brown fox jumps over the lazy dog~end b 65536 4096 The quick brown fox jumps over the lazy dog.~inject b 10.0.0.1:1935 f3c13152dd4b532b2e8a6279421e678998a7793cffffffffffffffffffffffffffffffffe7c11d5a60~open b a 10.0.0.1:1935~||0
done|replay --journal|-|||0
done|replay --journal|bytes|end a 1 1 0123456789abcdefx|log a 1 1 0 0000000000000000000000000000000000000000000000000000000000000000 8d91a6ea204253859ba8bb70784d5ed4e63de1873f84b8773da33e747f17e8fa 3031323334353637383961626364656678~|177
bad-script 2|replay --journal|-|end a 1 1 0123456789abcdefx~zz||0
sink-fault|replay --journal|write 2 3|end a 1 1 0123456789abcdefx~|log|0
sink-fault|replay --journal|flush 3|end a 1 1 0123456789abcdefx~|log a 1 1 0 0000000000000000000000000000000000000000000000000000000000000000 8d91a6ea204253859ba8bb70784d5ed4e63de1873f84b8773da33e747f17e8fa 3031323334353637383961626364656678~|0
done|replay --generate 7 --steps 0|-||ends=8 steps=0 sent=0 started=0 born=0 opened=0 confirmed=0 ended=0 dropped=0 kept=0~|85
done|replay --generate 7 --steps 1|-||ends=8 steps=1 sent=0 started=0 born=0 opened=0 confirmed=0 ended=0 dropped=0 kept=0~|85
done|replay --generate 5 --steps 1|-||ends=8 steps=1 sent=1 started=1 born=0 opened=0 confirmed=0 ended=0 dropped=0 kept=0~|85
done|replay --generate 10 --steps 100|-||ends=8 steps=100 sent=46 started=10 born=2 opened=2 confirmed=1 ended=0 dropped=31 kept=3~|90
done|replay --generate 1 --steps 1000|-||ends=8 steps=1000 sent=347 started=37 born=28 opened=28 confirmed=27 ended=10 dropped=380 kept=55~|98
done|replay --generate 3 --steps 400|-||ends=8 steps=400 sent=171 started=26 born=16 opened=12 confirmed=7 ended=2 dropped=90 kept=19~|94
";

/// A row of a long run. Where tests are only tried, and not built, it takes minutes.
const LONG: &str =
    "done|replay --generate 1 --steps 100000|-||ends=8 steps=100000 sent=15441 started=38 born=29 opened=29 confirmed=28 ended=11 dropped=54237 kept=56~|104";

/// Two ends, an attempt, and a datagram that nobody sent.
const FORGE: &str =
    "end a 65536 4096 The quick brown fox jumps over the lazy dog~end b 65536 4096 The quick brown fox jumps over the lazy dog.~open a b 10.0.0.2:1935~forge b 10.0.0.1:1935 0330000100~";

const FORGE_WRITTEN: &str = "3 a started peer=b n=1 near=3 ni=3~3 a sent 1 10.0.0.2:1935 ihello~";

/// A field of a row.
pub(crate) fn field(row: &str, index: usize) -> &str {
    row.split('|').nth(index).unwrap_or("")
}

/// A number among the words of a field, 0 where there is none.
fn number(field: &str, index: usize) -> u64 {
    field
        .split(' ')
        .nth(index)
        .unwrap_or("")
        .parse::<u64>()
        .unwrap_or(0)
}

/// The bytes that a text of a row stands for.
fn bytes_of(alloc: Global, text: &str) -> Result<Vec<u8>, AllocError> {
    let mut bytes = Vec::new(alloc);
    for byte in text.as_bytes() {
        bytes.push(match *byte {
            b'~' => b'\n',
            b'^' => b'\r',
            other => other,
        })?;
    }
    Ok(bytes)
}

/// The calls of a kind that are to fail, at most one.
fn failing(alloc: Global, plan: &str, kind: &str) -> Result<Vec<u64>, AllocError> {
    let mut calls = Vec::new(alloc);
    if plan.starts_with(kind) {
        calls.push(number(plan, 1))?;
    }
    Ok(calls)
}

/// The bytes that a text of a row stands for, which are those of another one where it is `forge`.
fn bytes_or(alloc: Global, text: &str, forged: &str) -> Result<Vec<u8>, AllocError> {
    if text == "forge" {
        return bytes_of(alloc, forged);
    }
    bytes_of(alloc, text)
}

fn source_of(alloc: Global, row: &str) -> Result<FaultySource, AllocError> {
    let plan = field(row, 2);
    let failing = failing(alloc, plan, "read")?;
    let input = bytes_or(alloc, field(row, 3), FORGE)?;
    let piece = if plan == "bytes" { 1 } else { 4096 };
    Ok(FaultySource::new(MemorySource::in_pieces(input, piece), failing))
}

fn sink_of(alloc: Global, row: &str) -> Result<FaultySink, AllocError> {
    let plan = field(row, 2);
    let writes = failing(alloc, plan, "write")?;
    let flushes = failing(alloc, plan, "flush")?;
    Ok(FaultySink::new(alloc, writes, flushes, number(plan, 2) as usize))
}

/// The words of a command, which stand in a text with blanks between them.
fn words_of(alloc: Global, text: &str) -> Result<Vec<String>, AllocError> {
    let mut words = Vec::new(alloc);
    for word in text.split(' ') {
        words.push(String::from_str(alloc, word)?)?;
    }
    Ok(words)
}

/// Whether a field says this word, and this line.
fn says_line(field: &str, word: &str, line: u64) -> bool {
    field.starts_with(word) && number(field, 1) == line
}

/// Whether a field says this status, with its line.
pub(crate) fn says_status(field: &str, status: Status) -> bool {
    match status {
        Status::Done => field == "done",
        Status::BadWords => field == "bad-words",
        Status::BadScript(line) => says_line(field, "bad-script ", line),
        Status::Forged(line) => says_line(field, "forged ", line),
        Status::SourceFault => field == "source-fault",
        Status::SinkFault => field == "sink-fault",
        Status::ScriptLong => field == "script-long",
        _ => false,
    }
}

/// Whether a sink has written and passed on what a row says.
fn says_written(alloc: Global, row: &str, sink: &FaultySink) -> Result<bool, AllocError> {
    let written = bytes_or(alloc, field(row, 4), FORGE_WRITTEN)?;
    let passed = number(field(row, 5), 0);
    Ok(sink.written() == Some(written.as_slice()) && sink.passed() as u64 == passed)
}

/// How the run of a row ends.
fn status_of(alloc: Global, row: &str, sink: &mut FaultySink) -> Result<Status, AllocError> {
    let words = words_of(alloc, field(row, 1))?;
    let mut source = source_of(alloc, row)?;
    Ok(run_over(alloc, words.as_slice(), &mut source, sink))
}

fn is_so(alloc: Global, row: &str) -> Result<bool, AllocError> {
    let mut sink = sink_of(alloc, row)?;
    let status = status_of(alloc, row, &mut sink)?;
    let written = says_written(alloc, row, &sink)?;
    Ok(written && says_status(field(row, 0), status))
}

/// The first row that isn't so.
fn first_wrong(alloc: Global) -> Result<Option<&'static str>, AllocError> {
    for row in ROWS.lines() {
        if !is_so(alloc, row)? {
            return Ok(Some(row));
        }
    }
    Ok(None)
}

#[test]
fn runs_end_so(rt: HostRuntime) -> Result<(), Fail> {
    assert_eq!(rt; first_wrong(rt.alloc())?, None);
    Ok(())
}

#[test]
fn a_long_run_ends_so(rt: HostRuntime) -> Result<(), Fail> {
    assert!(rt; is_so(rt.alloc(), LONG)?);
    Ok(())
}

/// How a run of a command ends over these bytes.
pub(crate) fn status_of_bytes(
    alloc: Global,
    word: &str,
    bytes: Vec<u8>,
    sink: &mut MemorySink,
) -> Result<Status, AllocError> {
    let words = words_of(alloc, word)?;
    let mut source = MemorySource::new(bytes);
    Ok(run_over(alloc, words.as_slice(), &mut source, sink))
}

/// How a run of a command ends over so many times a byte.
fn status_over(alloc: Global, word: &str, byte: u8, count: usize) -> Result<Status, AllocError> {
    let bytes = vec![in alloc; byte; count]?;
    status_of_bytes(alloc, word, bytes, &mut MemorySink::new(alloc))
}

/// A source has a million lines at most.
fn lines_are_limited(alloc: Global) -> Result<bool, AllocError> {
    let most = status_over(alloc, "replay", b'\n', 1_000_000)? == Status::Done;
    let more = status_over(alloc, "replay", b'\n', 1_000_001)? == Status::ScriptLong;
    Ok(most && more)
}

/// A line of `show` has 4,096 bytes at most.
fn bytes_are_limited(alloc: Global) -> Result<bool, AllocError> {
    let most = status_over(alloc, "show", b'3', 4096)? == Status::Done;
    let more = status_over(alloc, "show", b'3', 4098)? == Status::BadScript(1);
    Ok(most && more)
}

#[test]
fn a_source_has_its_limits(rt: HostRuntime) -> Result<(), Fail> {
    assert!(rt; lines_are_limited(rt.alloc())?);
    assert!(rt; bytes_are_limited(rt.alloc())?);
    Ok(())
}
