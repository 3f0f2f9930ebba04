//! `meet` over a spawner in memory: what it starts, waits for and writes.
ghost use Rattle.std.specs.Prelude.{◌≡◌, None, IfOk};
ghost use Rattle.rtmfp_host.specs.Children.{faulty_spawner_status};

use rtmfp_base::Message;
use rtmfp_host::{ChildEnd, FaultySink, FaultySpawner, MemorySpawner, SpawnCall};
use rtmfp_lines::Status;
use rtmfp_meet::meet;
use rtmfp_words::MeetWords;
use std::alloc::{AllocError, Global};
use std::test::Fail;

/// Rows: how a run ends, the ends of the three children with status and text, the call that is to
/// fail, what was written, how many bytes of that were passed on, and the calls of the spawner: a
/// start with the number of its child, or `-` where it gave none, and a wait that gave an end. In
/// texts `~` stands for the end of a line.
const ROWS: &str = "\
done|0 x~y~,0 z~,0 w~|-|i x~i y~b z~a w~|16|start 0 start 1 start 2 wait 0 wait 1 wait 2
done|0 x~y,0 ,0 ~|-|i x~i y~a ~|11|start 0 start 1 start 2 wait 0 wait 1 wait 2
spawn-fault|0 x~,0 z~,0 w~|start 1||0|start -
spawn-fault|0 x~,0 z~,0 w~|start 2||0|start 0 start -
spawn-fault|0 x~,0 z~,0 w~|start 3||0|start 0 start 1 start -
spawn-fault|0 x~,0 z~,0 w~|wait 1||0|start 0 start 1 start 2
spawn-fault|0 x~,0 z~,0 w~|wait 3|i x~b z~|8|start 0 start 1 start 2 wait 0 wait 1
child-failed 6|6 x~,0 z~,0 w~|-||0|start 0 start 1 start 2 wait 0
child-failed -9|0 x~,-9 z~,6 w~|-|i x~|4|start 0 start 1 start 2 wait 0 wait 1
child-failed 2|0 x~,0 z~,2 w~|-|i x~b z~|8|start 0 start 1 start 2 wait 0 wait 1 wait 2
sink-fault|0 xyz~,0 z~,0 w~|write 1 1|i|0|start 0 start 1 start 2 wait 0
sink-fault|0 xyz~,0 z~,0 w~|write 2 1|i x|0|start 0 start 1 start 2 wait 0
sink-fault|0 xyz~,0 z~,0 w~|write 3 0|i xyz|0|start 0 start 1 start 2 wait 0
sink-fault|0 x~,0 z~,0 w~|flush 2|i x~b z~|4|start 0 start 1 start 2 wait 0 wait 1
";

/// The words of the three starts, O for 64 digits 0. The fingerprints were computed apart from this
/// program.
const WORDS: &str = "\
serve 127.0.0.1:40100 O introducer --turns 200 --introduce --instance 11111111111111111111111111111111
serve 127.0.0.1:40101 O answerer --turns 200 --instance 22222222222222222222222222222222 83c1a8a94aee19711d0ecf38f44a08b98e2097116d701ab66a47c4c5c0b02827@127.0.0.1:40100
serve 127.0.0.1:40102 O caller --turns 200 --instance 33333333333333333333333333333333 --send 68656c6c6f f2a0a6607e166894e6047b3d6432a28f12104a52395ad61afef18af1b1fa5a59@127.0.0.1:40100
";

/// A field of a row.
fn field(row: &str, index: usize) -> &str {
    row.split('|').nth(index).unwrap_or("")
}

/// A number among the words of a field, 0 where there is none.
fn number(field: &str, index: usize) -> u64 {
    let word = field.split(' ').nth(index).unwrap_or("");
    word.parse::<u64>().unwrap_or(0)
}

/// The bytes that a text of a row stands for.
fn bytes_of(alloc: Global, text: &str) -> Result<Vec<u8>, AllocError> {
    let mut bytes = Vec::new(alloc);
    for byte in text.as_bytes() {
        bytes.push(if *byte == b'~' { b'\n' } else { *byte })?;
    }
    Ok(bytes)
}

/// The calls of a kind that are to fail, at most one.
fn failing(alloc: Global, plan: &str, kind: &str) -> Result<Vec<u64>, AllocError> {
    let mut calls = Vec::new(alloc);
    if plan.starts_with(kind) {
        calls.push(number(plan, 1))?;
    }
    Ok(calls)
}

/// The status of a child, and its text.
fn sides(end: &str) -> (&str, &str) {
    end.split_once(' ').unwrap_or(("", ""))
}

/// The end of a child.
fn end_of(alloc: Global, end: &str) -> Result<ChildEnd, AllocError> {
    let (status, text) = sides(end);
    let status = status.parse::<i32>().unwrap_or(0);
    let text = Message::of(bytes_of(alloc, text)?);
    Ok(ChildEnd { status, text })
}

/// The ends of the children of a row.
fn ends_of(alloc: Global, text: &str) -> Result<Vec<ChildEnd>, AllocError> {
    let mut ends = Vec::new(alloc);
    for end in text.split(',') {
        ends.push(end_of(alloc, end)?)?;
    }
    Ok(ends)
}

fn spawner_of(alloc: Global, row: &str) -> Result<FaultySpawner, AllocError>
    ensures { IfOk result (λ spawner. faulty_spawner_status spawner ≡ None) }
{
    let plan = field(row, 2);
    let ends = ends_of(alloc, field(row, 1))?;
    let starts = failing(alloc, plan, "start")?;
    let waits = failing(alloc, plan, "wait")?;
    Ok(FaultySpawner::new(MemorySpawner::new(alloc, ends), starts, waits))
}

fn sink_of(alloc: Global, row: &str) -> Result<FaultySink, AllocError> {
    let plan = field(row, 2);
    let writes = failing(alloc, plan, "write")?;
    let flushes = failing(alloc, plan, "flush")?;
    Ok(FaultySink::new(alloc, writes, flushes, number(plan, 2) as usize))
}

/// Whether a field says that a child ended with this status.
fn says_failed(alloc: Global, field: &str, code: i32) -> Result<bool, AllocError> {
    let told = format!(in alloc; "child-failed {code}")?;
    Ok(told.as_str() == field)
}

/// Whether a field says this status.
fn says_status(alloc: Global, field: &str, status: Status) -> Result<bool, AllocError> {
    match status {
        Status::Done => Ok(field == "done"),
        Status::SpawnFault => Ok(field == "spawn-fault"),
        Status::SinkFault => Ok(field == "sink-fault"),
        Status::ChildFailed(code) => says_failed(alloc, field, code),
        _ => Ok(false),
    }
}

/// A start in words.
fn start_text(alloc: Global, child: &Option<u32>) -> Result<String, AllocError> {
    match child {
        Some(child) => format!(in alloc; " start {child}"),
        None => String::from_str(alloc, " start -"),
    }
}

/// A call in words.
fn call_text(alloc: Global, call: &SpawnCall) -> Result<String, AllocError> {
    match call {
        SpawnCall::Start { child, .. } => start_text(alloc, child),
        SpawnCall::Wait { child, .. } => format!(in alloc; " wait {child}"),
    }
}

/// Adds a call in words.
fn push_call(alloc: Global, call: &SpawnCall, told: &mut String) -> Result<(), AllocError> {
    let word = call_text(alloc, call)?;
    told.push_str(word.as_str())
}

/// The calls of a spawner in words, each behind a blank.
fn calls_of(alloc: Global, calls: Option<&[SpawnCall]>) -> Result<String, AllocError> {
    let mut told = String::new(alloc);
    for call in calls.unwrap_or(&[]) {
        push_call(alloc, call, &mut told)?;
    }
    Ok(told)
}

/// Whether this was written and so many bytes of it passed on.
fn says_written(alloc: Global, row: &str, sink: &FaultySink) -> Result<bool, AllocError> {
    let written = bytes_of(alloc, field(row, 3))?;
    let passed = number(field(row, 4), 0);
    Ok(sink.written() == Some(written.as_slice()) && sink.passed() as u64 == passed)
}

/// A run of `meet` by the words of all rows.
fn run(alloc: Global, sink: &mut FaultySink, spawner: &mut FaultySpawner) -> Status
    requires { faulty_spawner_status spawner.old ≡ None }
{
    let words = MeetWords {
        port: 40100,
        turns: 200,
    };
    meet(alloc, words, sink, spawner)
}

/// Whether a row says these calls.
fn says_calls(alloc: Global, row: &str, calls: Option<&[SpawnCall]>) -> Result<bool, AllocError> {
    let told = calls_of(alloc, calls)?;
    Ok(told.as_str().trim_start() == field(row, 5))
}

/// Whether a run over these ends, writes and calls as its row says.
fn goes_so(
    alloc: Global,
    row: &str,
    sink: &mut FaultySink,
    spawner: &mut FaultySpawner,
) -> Result<bool, AllocError>
    requires { faulty_spawner_status spawner.old ≡ None }
{
    let status = run(alloc, sink, spawner);
    let calls = says_calls(alloc, row, spawner.calls())?;
    let written = says_written(alloc, row, sink)?;
    let ends = says_status(alloc, field(row, 0), status)?;
    Ok(calls && written && ends)
}

fn is_so(alloc: Global, row: &str) -> Result<bool, AllocError> {
    let mut spawner = spawner_of(alloc, row)?;
    let mut sink = sink_of(alloc, row)?;
    goes_so(alloc, row, &mut sink, &mut spawner)
}

/// The first row that is wrong.
fn first_wrong(alloc: Global) -> Result<Option<&'static str>, AllocError> {
    for row in ROWS.lines() {
        if !is_so(alloc, row)? {
            return Ok(Some(row));
        }
    }
    Ok(None)
}

#[test]
fn runs_of_meet_end_so(rt: HostRuntime) -> Result<(), Fail> {
    assert_eq!(rt; first_wrong(rt.alloc())?, None);
    Ok(())
}

/// The words of a start, with blanks between them.
fn push_words(call: &SpawnCall, told: &mut String) -> Result<(), AllocError> {
    if let SpawnCall::Start { words, .. } = call {
        for word in words.words() {
            told.push_str(word.as_str())?;
            told.push_str(" ")?;
        }
        told.push_str("\n")?;
    }
    Ok(())
}

/// The words of all starts among calls, a line each.
fn words_in(alloc: Global, calls: Option<&[SpawnCall]>) -> Result<String, AllocError> {
    let mut told = String::new(alloc);
    for call in calls.unwrap_or(&[]) {
        push_words(call, &mut told)?;
    }
    Ok(told)
}

/// The words of all starts of a run, a line each.
fn starts_of(alloc: Global) -> Result<String, AllocError> {
    let mut spawner = spawner_of(alloc, "done|0 ,0 ,0 |-")?;
    let mut sink = sink_of(alloc, "done")?;
    let _ = run(alloc, &mut sink, &mut spawner);
    words_in(alloc, spawner.calls())
}

/// What a word of a wanted line stands for.
fn wanted_word(word: &str) -> &str {
    match word {
        "O" => "0000000000000000000000000000000000000000000000000000000000000000",
        other => other,
    }
}

/// Adds a wanted line.
fn push_wanted(line: &str, text: &mut String) -> Result<(), AllocError> {
    for word in line.split(' ') {
        text.push_str(wanted_word(word))?;
        text.push_str(" ")?;
    }
    text.push_str("\n")
}

/// The lines that the words of the starts are to be.
fn wanted(alloc: Global) -> Result<String, AllocError> {
    let mut text = String::new(alloc);
    for line in WORDS.lines() {
        push_wanted(line, &mut text)?;
    }
    Ok(text)
}

fn are_started_so(alloc: Global) -> Result<bool, AllocError> {
    let wanted = wanted(alloc)?;
    let told = starts_of(alloc)?;
    Ok(told.as_str() == wanted.as_str())
}

#[test]
fn three_nodes_are_started_so(rt: HostRuntime) -> Result<(), Fail> {
    assert!(rt; are_started_so(rt.alloc())?);
    Ok(())
}
