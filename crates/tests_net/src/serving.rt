//! Runs of a node over objects in memory.

use rtmfp_base::Message;
use rtmfp_forms::Address;
use rtmfp_host::{
    Entropy, FaultyEntropy, FaultyLink, FaultySink, Given, Link, LinkCall, MemoryEntropy,
    MemoryLink, MemoryMoments, MemorySink, Sink,
};
use rtmfp_node::{Served, serve};
use rtmfp_words::read_serve_words;
use std::alloc::{AllocError, Global};
use std::test::Fail;

/// Which call of which object fails, how the run then ends, and the lines that it writes, of two
/// turns with one opening; then, where there is one, a second call that fails. S and H are the lines
/// of the opening, whose nonce is that of the second block, and U tells that its datagram is lost.
/// What comes first ends the run: a draw before the bind, and in each turn before its receive.
const FAULTS: &str = "\
none 0 done SH
link 1 link -
link 2 link SH
link 3 link SH
link 4 done SH
send 1 done SHU
send 2 done SH
draw 1 entropy -
draw 2 entropy -
draw 3 entropy SH
draw 4 entropy SH
draw 5 done SH
draw 1 entropy - link 1
draw 2 link - link 1
draw 2 entropy - link 2
draw 3 entropy SH link 2
draw 4 link SH link 2
draw 4 entropy SH link 3
write 1 sink -
write 2 sink SH
write 3 sink SH
write 4 done SH
flush 1 sink SH
flush 3 sink SH
flush 4 done SH
";

/// The same where a datagram of three bytes comes in turn 2, D, and the hello is due again then, A;
/// V tells that this one is lost.
const BUSY_FAULTS: &str = "\
none 0 done SHDA
link 3 link SH
send 1 done SHUDA
send 2 done SHDAV
send 3 done SHDA
draw 4 entropy SH
";

/// The line of the attempt that begins.
const STARTED: &str = "0 self started peer=\
0707070707070707070707070707070707070707070707070707070707070707 n=1 near=9 ni=ab
";

const HELLO: &str = "0 self sent 1 10.0.0.2:1935 ihello\n";

const UNSENT: &str = "0 self unsent 1\n";

const AGAIN: &str = "2 self sent 2 10.0.0.2:1935 ihello\n";

const AGAIN_UNSENT: &str = "2 self unsent 2\n";

const REFUSED: &str = "0 self refused opening 1\n";

const DISCARDED: &str = "2 self drop 0 short\n";

/// A node with two turns and an opening.
const LINE: &str = "serve 10.0.0.1:1935 P node P@10.0.0.2:1935 --turns 2";

/// The same with that opening twice.
const TWICE: &str = "serve 10.0.0.1:1935 P node P@10.0.0.2:1935 P@10.0.0.2:1935 --turns 2";

const PRINT: &str = "0707070707070707070707070707070707070707070707070707070707070707";

/// The word of a row at this place.
fn word(row: &str, index: usize) -> &str {
    row.split(' ').nth(index).unwrap_or("")
}

/// The numbers of the calls that are to fail, of those that a row names of this kind.
fn failing(alloc: Global, row: &str, kind: &str) -> Result<Vec<u64>, AllocError> {
    let mut numbers = Vec::new(alloc);
    for (at, number) in [(0, 1), (4, 5)] {
        if word(row, at) == kind {
            numbers.push(word(row, number).parse::<u64>().unwrap_or(0))?;
        }
    }
    Ok(numbers)
}

/// The lines that letters stand for.
fn lines_of(alloc: Global, letters: &str) -> Result<Vec<u8>, AllocError> {
    let mut lines = Vec::new(alloc);
    for letter in letters.chars() {
        lines.extend_from_slice(line_of(letter).as_bytes())?;
    }
    Ok(lines)
}

fn line_of(letter: char) -> &'static str {
    match letter {
        'S' => STARTED,
        'H' => HELLO,
        'U' => UNSENT,
        'A' => AGAIN,
        'V' => AGAIN_UNSENT,
        'R' => REFUSED,
        'D' => DISCARDED,
        _ => "",
    }
}

fn served_of(word: &str) -> Served {
    match word {
        "done" => Served::Done,
        "link" => Served::LinkFault,
        "sink" => Served::SinkFault,
        "entropy" => Served::EntropyFault,
        _ => Served::Memory,
    }
}

/// The blocks of a run: one of zeros, and one that names a nonce and a session ID.
fn blocks(alloc: Global) -> Result<Vec<[u8; 64]>, AllocError> {
    let mut second = [0; 64];
    second[15] = 0xab;
    second[51] = 9;
    Ok(Vec::from_array(alloc, [[0; 64], second])?)
}

/// Adds a letter of a line.
fn push_letter(letter: char, word: &mut String) -> Result<(), AllocError> {
    match letter {
        'P' => word.push_str(PRINT),
        other => word.push(other),
    }
}

/// The word that letters stand for.
fn word_of(alloc: Global, text: &str) -> Result<String, AllocError> {
    let mut word = String::new(alloc);
    for letter in text.chars() {
        push_letter(letter, &mut word)?;
    }
    Ok(word)
}

/// The words of a line, in which P stands for 64 digits.
pub(crate) fn words_of(alloc: Global, line: &str) -> Result<Vec<String>, AllocError> {
    let mut words = Vec::new(alloc);
    for word in line.split(' ') {
        words.push(word_of(alloc, word)?)?;
    }
    Ok(words)
}

/// How a run by these words ends.
fn serve_line<L: Link, E: Entropy, K: Sink>(
    alloc: Global,
    line: &str,
    link: &mut L,
    clock: &mut MemoryMoments,
    entropy: &mut E,
    sink: &mut K,
) -> Result<Served, Fail> {
    let words = words_of(alloc, line)?;
    match read_serve_words(alloc, words.as_slice()) {
        Ok(told) => Ok(serve(alloc, &told, link, clock, entropy, sink)),
        Err(_) => Ok(Served::Memory),
    }
}

fn link_of(alloc: Global, row: &str, link: MemoryLink) -> Result<FaultyLink, AllocError> {
    let lost = failing(alloc, row, "send")?;
    Ok(FaultyLink::new(link, failing(alloc, row, "link")?, lost))
}

fn entropy_of(alloc: Global, row: &str) -> Result<FaultyEntropy, AllocError> {
    let entropy = MemoryEntropy::new(blocks(alloc)?);
    Ok(FaultyEntropy::new(entropy, failing(alloc, row, "draw")?))
}

fn sink_of(alloc: Global, row: &str) -> Result<FaultySink, AllocError> {
    let writes = failing(alloc, row, "write")?;
    Ok(FaultySink::new(alloc, writes, failing(alloc, row, "flush")?, 0))
}

/// How a run with these faults ends.
fn run(
    alloc: Global,
    row: &str,
    link: MemoryLink,
    moments: Vec<u64>,
    sink: &mut FaultySink,
) -> Result<Served, Fail> {
    let mut link = link_of(alloc, row, link)?;
    let mut entropy = entropy_of(alloc, row)?;
    let mut clock = MemoryMoments::new(moments);
    serve_line(alloc, LINE, &mut link, &mut clock, &mut entropy, sink)
}

/// Whether a sink has what a row says.
fn says_written(alloc: Global, row: &str, sink: &FaultySink) -> Result<bool, AllocError> {
    let lines = lines_of(alloc, word(row, 3))?;
    Ok(sink.written() == Some(lines.as_slice()))
}

/// Whether a run ends as its row says.
fn ends_so(alloc: Global, row: &str, link: MemoryLink, moments: Vec<u64>) -> Result<bool, Fail> {
    let mut sink = sink_of(alloc, row)?;
    let served = run(alloc, row, link, moments, &mut sink)?;
    let written = says_written(alloc, row, &sink)?;
    Ok(written && served == served_of(word(row, 2)))
}

/// Whether a run in which nothing comes ends as its row says.
fn is_so(alloc: Global, row: &str) -> Result<bool, Fail> {
    let link = MemoryLink::new(alloc, Vec::new(alloc));
    ends_so(alloc, row, link, Vec::new(alloc))
}

/// The moments of two turns.
fn two_turns(alloc: Global) -> Result<Vec<u64>, AllocError> {
    Ok(Vec::from_array(alloc, [5, 10, 20, 1000, 1010])?)
}

/// Whether a run in which a datagram comes ends as its row says.
fn is_busy_so(alloc: Global, row: &str) -> Result<bool, Fail> {
    let moments = two_turns(alloc)?;
    let link = link_with_a_datagram(alloc)?;
    ends_so(alloc, row, link, moments)
}

fn first_wrong(alloc: Global) -> Result<Option<&'static str>, Fail> {
    for row in FAULTS.lines() {
        if !is_so(alloc, row)? {
            return Ok(Some(row));
        }
    }
    Ok(None)
}

fn first_busy_wrong(alloc: Global) -> Result<Option<&'static str>, Fail> {
    for row in BUSY_FAULTS.lines() {
        if !is_busy_so(alloc, row)? {
            return Ok(Some(row));
        }
    }
    Ok(None)
}

#[test]
fn each_fault_ends_a_run_as_it_should(rt: HostRuntime) -> Result<(), Fail> {
    assert_eq!(rt; first_wrong(rt.alloc())?, None);
    Ok(())
}

#[test]
fn each_fault_ends_a_busy_run_as_it_should(rt: HostRuntime) -> Result<(), Fail> {
    assert_eq!(rt; first_busy_wrong(rt.alloc())?, None);
    Ok(())
}

/// How a run without faults ends.
fn run_well(
    alloc: Global,
    line: &str,
    link: &mut MemoryLink,
    moments: Vec<u64>,
    sink: &mut MemorySink,
) -> Result<Served, Fail> {
    let mut clock = MemoryMoments::new(moments);
    let mut entropy = MemoryEntropy::new(blocks(alloc)?);
    serve_line(alloc, line, link, &mut clock, &mut entropy, sink)
}

/// Whether a run without faults ends with Done and has written what these letters stand for.
fn writes(
    alloc: Global,
    line: &str,
    link: &mut MemoryLink,
    moments: Vec<u64>,
    letters: &str,
) -> Result<bool, Fail> {
    let mut sink = MemorySink::new(alloc);
    let served = run_well(alloc, line, link, moments, &mut sink)?;
    let lines = lines_of(alloc, letters)?;
    Ok(served == Served::Done && sink.written() == Some(lines.as_slice()))
}

/// A call as one number: of a bind its port, of a receive its moment, of a send its port and
/// whether it was done.
fn number_of(call: &LinkCall) -> u64 {
    match call {
        LinkCall::Bind { at } => u64::from(at.port),
        LinkCall::Receive { until } => *until,
        LinkCall::Send { to, done, .. } => u64::from(to.port) * 10 + u64::from(*done),
    }
}

/// Whether the calls of a link are these.
fn was_called_so(link: &MemoryLink) -> bool {
    match link.calls() {
        Some(calls) => calls
            .iter()
            .map(number_of)
            .eq([1935, 19351, 60, 1050, 19351]),
        None => false,
    }
}

fn acts_at_its_second_moment(alloc: Global) -> Result<bool, Fail> {
    let moments = two_turns(alloc)?;
    let mut link = MemoryLink::new(alloc, Vec::new(alloc));
    let wrote = writes(alloc, LINE, &mut link, moments, "SHA")?;
    Ok(wrote && was_called_so(&link))
}

/// The hello of moment 5 is due again at 1,005: after the first moment of turn 2, and before its
/// second one.
#[test]
fn a_turn_acts_at_its_second_moment(rt: HostRuntime) -> Result<(), Fail> {
    assert!(rt; acts_at_its_second_moment(rt.alloc())?);
    Ok(())
}

/// A link that has a datagram of three bytes to give at the second receive.
fn link_with_a_datagram(alloc: Global) -> Result<MemoryLink, Fail> {
    let datagram = Given::Datagram {
        from: Address::v4([10, 0, 0, 3], 1),
        bytes: Message::copy_of(alloc, b"abc")?,
    };
    let left = Vec::from_array(alloc, [Given::Quiet, datagram])?;
    Ok(MemoryLink::new(alloc, left))
}

fn has_lines_of_refusals(alloc: Global) -> Result<bool, Fail> {
    let mut link = link_with_a_datagram(alloc)?;
    writes(alloc, TWICE, &mut link, Vec::new(alloc), "SHRD")
}

/// The second opening towards the same end is refused, and the datagram is discarded.
#[test]
fn what_is_refused_has_its_line(rt: HostRuntime) -> Result<(), Fail> {
    assert!(rt; has_lines_of_refusals(rt.alloc())?);
    Ok(())
}
