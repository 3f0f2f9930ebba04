//! Nodes over objects in memory that talk by datagrams that another program made: each is brought
//! what the others send to it, and has to send just what they were brought.

ghost use Rattle.std.specs.Prelude.{IfOk};
ghost use Rattle.rtmfp_host.specs.Linking.{IsShortGiven};

use crate::recorded::{A_CALL, CROSSED_CALLS, TWO_CALLS};
use crate::serving::words_of;
use crate::sessions::datagram;
use rtmfp_cli::{Status, run};
use rtmfp_forms::Address;
use rtmfp_host::{
    FaultyLink, Given, LinkCall, MemoryEntropy, MemoryLink, MemoryMoments, MemorySink,
    MemorySource, MemorySpawner,
};
use std::alloc::{AllocError, Global};
use std::test::Fail;

/// A node that is called, and takes four datagrams in four turns.
const CALLED: &str =
    "serve 127.0.0.1:40100 P answerer --turns 4 --instance 30313233343536373839616263646566";

const CALLED_REPORT: &str = "\
1 self sent 1 127.0.0.1:40101 rhello
2 self born peer=b10f45cf1e494ed6dfea01450bb92362deda8d15635b1a7a2c50dfa9ee8939e6 n=1 near=12 far=68 ni=41 nr=9 k=0
2 self sent 2 127.0.0.1:40101 rikeying
3 self confirmed near=12
3 self sent 3 127.0.0.1:40101 pingreply
4 self handed near=12 flow=0 seq=1 000102030405060708090a0b0c0d0e0f101112131415161718191a1b1c1d1e1f202122232425262728292a2b2c2d2e2f303132333435363738393a3b3c3d3e3f404142434445464748494a4b4c4d4e4f505152535455565758595a5b5c5d5e5f60616263
4 self sent 4 127.0.0.1:40101 ackranges
";

/// The node that calls it and sends 100 bytes. Its message is acknowledged in turn 4, and so isn't
/// sent again 320 ms after turn 2, which were turn 10.
const CALLING: &str =
    "serve 127.0.0.1:40101 P caller aad5e1db1cb4861e40321d0c242b1453632c075eb76a2c583597fbfa3d796667@127.0.0.1:40100 --turns 12 --instance 30313233343536373839616263646566 --send 000102030405060708090a0b0c0d0e0f101112131415161718191a1b1c1d1e1f202122232425262728292a2b2c2d2e2f303132333435363738393a3b3c3d3e3f404142434445464748494a4b4c4d4e4f505152535455565758595a5b5c5d5e5f60616263";

const CALLING_REPORT: &str = "\
0 self started peer=aad5e1db1cb4861e40321d0c242b1453632c075eb76a2c583597fbfa3d796667 n=1 near=68 ni=41
0 self sent 1 127.0.0.1:40100 ihello
1 self sent 2 127.0.0.1:40100 iikeying
2 self opened peer=aad5e1db1cb4861e40321d0c242b1453632c075eb76a2c583597fbfa3d796667 n=1 near=68 far=12 ni=41 nr=9 k=0
2 self sent 3 127.0.0.1:40100 ping
2 self flow near=68 id=0
2 self queued near=68 flow=0 seq=1 length=100
2 self sent 4 127.0.0.1:40100 data
";

/// Of two nodes that call each other the one whose fingerprint is above the other's: its own
/// attempt opens the session.
const ANNA: &str =
    "serve 127.0.0.1:40100 P anna 194992a2bd517a2bbb8d126c21b2da78c4259d5ac3a6a25ffe5c438dc35f98bd@127.0.0.1:40101 --turns 15 --instance 30313233343536373839616263646566 --send 6161";

const ANNA_REPORT: &str = "\
0 self started peer=194992a2bd517a2bbb8d126c21b2da78c4259d5ac3a6a25ffe5c438dc35f98bd n=1 near=8 ni=5
0 self sent 1 127.0.0.1:40101 ihello
1 self sent 2 127.0.0.1:40101 rhello
2 self sent 3 127.0.0.1:40101 iikeying
3 self drop 1 glare 1
4 self opened peer=194992a2bd517a2bbb8d126c21b2da78c4259d5ac3a6a25ffe5c438dc35f98bd n=1 near=8 far=80 ni=5 nr=4d k=1
4 self sent 4 127.0.0.1:40101 ping
4 self flow near=8 id=0
4 self queued near=8 flow=0 seq=1 length=2
4 self sent 5 127.0.0.1:40101 data
";

/// The other one, which gives up its attempt for the session, and sends no message in a session
/// that it didn't open.
const BERT: &str =
    "serve 127.0.0.1:40101 P bert 4203b3f7ee287c23fbdede6f2876696869e40c910d2f1e776711012bd8762948@127.0.0.1:40100 --turns 5 --instance 30313233343536373839616263646566 --send 6262";

const BERT_REPORT: &str = "\
0 self started peer=4203b3f7ee287c23fbdede6f2876696869e40c910d2f1e776711012bd8762948 n=1 near=68 ni=41
0 self sent 1 127.0.0.1:40100 ihello
1 self sent 2 127.0.0.1:40100 rhello
2 self sent 3 127.0.0.1:40100 iikeying
3 self ended near=68 glare
3 self born peer=4203b3f7ee287c23fbdede6f2876696869e40c910d2f1e776711012bd8762948 n=1 near=80 far=8 ni=5 nr=4d k=1
3 self sent 4 127.0.0.1:40100 rikeying
4 self confirmed near=80
4 self sent 5 127.0.0.1:40100 pingreply
5 self handed near=80 flow=0 seq=1 6161
5 self sent 6 127.0.0.1:40100 ackranges
";

/// A node that draws its instance bytes, and calls two others.
const CALLS_TWO: &str =
    "serve 127.0.0.1:40102 P caller 509553cd9fe3e08f74a345840d1489554da0503fdd1f4a0d40eb429f0987ca55@127.0.0.1:40100 4991dd9dd36cb3ee51450d676fa897247eeff2171de7b2a608788ec1d0716c71@127.0.0.1:40101 --turns 20 --send 68656c6c6f";

const CALLS_TWO_REPORT: &str = "\
0 self started peer=509553cd9fe3e08f74a345840d1489554da0503fdd1f4a0d40eb429f0987ca55 n=1 near=128 ni=7d
0 self sent 1 127.0.0.1:40100 ihello
0 self started peer=4991dd9dd36cb3ee51450d676fa897247eeff2171de7b2a608788ec1d0716c71 n=2 near=132 ni=81
0 self sent 2 127.0.0.1:40101 ihello
1 self sent 3 127.0.0.1:40100 iikeying
2 self sent 4 127.0.0.1:40101 iikeying
3 self opened peer=509553cd9fe3e08f74a345840d1489554da0503fdd1f4a0d40eb429f0987ca55 n=1 near=128 far=12 ni=7d nr=9 k=0
3 self sent 5 127.0.0.1:40100 ping
3 self flow near=128 id=0
3 self queued near=128 flow=0 seq=1 length=5
3 self sent 6 127.0.0.1:40100 data
4 self opened peer=4991dd9dd36cb3ee51450d676fa897247eeff2171de7b2a608788ec1d0716c71 n=2 near=132 far=72 ni=81 nr=45 k=0
4 self sent 7 127.0.0.1:40101 ping
4 self flow near=132 id=0
4 self queued near=132 flow=0 seq=1 length=5
4 self sent 8 127.0.0.1:40101 data
";

const FIRST: &str =
    "serve 127.0.0.1:40100 P first --turns 4 --instance 30313233343536373839616263646566";

const FIRST_REPORT: &str = "\
1 self sent 1 127.0.0.1:40102 rhello
2 self born peer=29dae3a6d6e5039f71ec189309348b916019b97c6dc9f111581ffa901d0d1b19 n=1 near=12 far=128 ni=7d nr=9 k=0
2 self sent 2 127.0.0.1:40102 rikeying
3 self confirmed near=12
3 self sent 3 127.0.0.1:40102 pingreply
4 self handed near=12 flow=0 seq=1 68656c6c6f
4 self sent 4 127.0.0.1:40102 ackranges
";

const SECOND: &str =
    "serve 127.0.0.1:40101 P second --turns 4 --instance 30313233343536373839616263646566";

const SECOND_REPORT: &str = "\
1 self sent 1 127.0.0.1:40102 rhello
2 self born peer=29dae3a6d6e5039f71ec189309348b916019b97c6dc9f111581ffa901d0d1b19 n=2 near=72 far=132 ni=81 nr=45 k=0
2 self sent 2 127.0.0.1:40102 rikeying
3 self confirmed near=72
3 self sent 3 127.0.0.1:40102 pingreply
4 self handed near=72 flow=0 seq=1 68656c6c6f
4 self sent 4 127.0.0.1:40102 ackranges
";

/// What a node did over a talk.
#[derive(Drop)]
pub(crate) struct Played {
    /// How its run ended.
    pub(crate) status: Status,
    /// What it wrote.
    pub(crate) sink: MemorySink,
    /// Whether it sent just the datagrams of the talk that are its own.
    pub(crate) sends: bool,
}

/// A word of a line.
fn word(line: &str, index: usize) -> &str {
    line.split(' ').nth(index).unwrap_or("")
}

/// The place of a node.
fn place(node: &str) -> Address {
    let port = match node {
        "0" => 40100,
        "1" => 40101,
        _ => 40102,
    };
    Address::v4([127, 0, 0, 1], port)
}

/// The node at a place.
fn node_at(to: &Address) -> &'static str {
    for node in ["0", "1", "2"] {
        if place(node).same_place(to) {
            return node;
        }
    }
    "nobody"
}

/// The datagram of a line, as the node that takes it is given it.
fn given(alloc: Global, line: &str) -> Result<Given, AllocError>
    ensures { IfOk result IsShortGiven }
{
    let digits = word(line, 2).as_bytes();
    let bytes = hex::decode(alloc, digits).ok().ok_or(AllocError)?;
    datagram(alloc, place(word(line, 0)), bytes.as_slice())
}

/// The lines of a talk in which a node stands first, as the one that sends, or second, as the one
/// that takes.
fn lines_of(alloc: Global, node: &str, talk: &str, at: usize) -> Result<String, AllocError> {
    let mut lines = String::new(alloc);
    for line in talk.lines() {
        if word(line, at) == node {
            lines.push_str(line)?;
            lines.push_str("\n")?;
        }
    }
    Ok(lines)
}

/// A link that gives the datagrams of these lines, one a turn.
fn link_over(alloc: Global, lines: &str) -> Result<MemoryLink, AllocError> {
    let mut left = Vec::new(alloc);
    for line in lines.lines() {
        left.push(given(alloc, line)?)?;
    }
    Ok(MemoryLink::new(alloc, left))
}

/// A link that gives the datagrams that are sent to a node, and whose bind fails where that is
/// told.
fn link_of(alloc: Global, node: &str, talk: &str, unbound: bool) -> Result<FaultyLink, AllocError> {
    let lines = lines_of(alloc, node, talk, 1)?;
    let link = link_over(alloc, lines.as_str())?;
    let mut failing = Vec::new(alloc);
    if unbound {
        failing.push(1)?;
    }
    Ok(FaultyLink::new(link, failing, Vec::new(alloc)))
}

/// The looks at the clock of a node: each is 20 ms after the one before.
fn looks(alloc: Global, node: &str) -> Result<Vec<u64>, AllocError> {
    let mut next: u64 = match node {
        "0" => 1_000,
        "1" => 262_000,
        _ => 5_000,
    };
    let mut looks = Vec::new(alloc);
    for _ in 0..41 {
        looks.push(next)?;
        next = next.saturating_add(20);
    }
    Ok(looks)
}

/// A block whose nonce, tag, token and word are this number and those after it.
fn block(first: u8) -> [u8; 64] {
    let mut block = [0; 64];
    block[15] = first;
    block[31] = first.wrapping_add(1);
    block[47] = first.wrapping_add(2);
    block[51] = first.wrapping_add(3);
    block
}

/// The blocks of a node, whose numbers follow each other.
fn blocks(alloc: Global, node: &str) -> Result<Vec<[u8; 64]>, AllocError> {
    let mut next: u8 = match node {
        "0" => 1,
        "1" => 61,
        _ => 121,
    };
    let mut blocks = Vec::new(alloc);
    for _ in 0..14 {
        blocks.push(block(next))?;
        next = next.wrapping_add(4);
    }
    Ok(blocks)
}

/// How a node by these words ends.
fn run_node(
    alloc: Global,
    words: &[String],
    node: &str,
    link: &mut FaultyLink,
    sink: &mut MemorySink,
) -> Result<Status, AllocError> {
    let mut spawner = MemorySpawner::new(alloc, Vec::new(alloc));
    Ok(run(
        alloc,
        words,
        link,
        &mut MemoryMoments::new(looks(alloc, node)?),
        &mut MemoryEntropy::new(blocks(alloc, node)?),
        &mut MemorySource::new(Vec::new(alloc)),
        sink,
        &mut spawner,
    ))
}

/// Adds the line of a datagram that a node sent.
fn push_sent(
    alloc: Global,
    node: &str,
    call: &LinkCall,
    lines: &mut String,
) -> Result<(), AllocError> {
    if let LinkCall::Send { to, bytes, .. } = call {
        let digits = hex::encode(alloc, bytes.bytes())?;
        lines.push_str(node)?;
        lines.push_str(" ")?;
        lines.push_str(node_at(to))?;
        lines.push_str(" ")?;
        lines.push_str(digits.as_str())?;
        lines.push_str("\n")?;
    }
    Ok(())
}

/// The lines of all datagrams that a node sent.
fn sent_lines(alloc: Global, node: &str, calls: Option<&[LinkCall]>) -> Result<String, AllocError> {
    let mut lines = String::new(alloc);
    for call in calls.unwrap_or(&[]) {
        push_sent(alloc, node, call, &mut lines)?;
    }
    Ok(lines)
}

/// Runs a node of a talk by these words.
pub(crate) fn play(
    alloc: Global,
    words: &[String],
    node: &str,
    talk: &str,
    unbound: bool,
) -> Result<Played, AllocError> {
    let mut link = link_of(alloc, node, talk, unbound)?;
    let mut sink = MemorySink::new(alloc);
    let status = run_node(alloc, words, node, &mut link, &mut sink)?;
    let sent = sent_lines(alloc, node, link.calls())?;
    let sends = sent.as_str() == lines_of(alloc, node, talk, 0)?.as_str();
    Ok(Played {
        status,
        sink,
        sends,
    })
}

/// Whether a node of a talk by these words ends with Done, sends what it is to send and writes
/// this.
fn talks(
    alloc: Global,
    line: &str,
    node: &str,
    talk: &str,
    report: &str,
) -> Result<bool, AllocError> {
    let words = words_of(alloc, line)?;
    let played = play(alloc, words.as_slice(), node, talk, false)?;
    let writes = played.sink.written() == Some(report.as_bytes());
    Ok(writes && played.sends && played.status == Status::Done)
}

#[test]
fn a_node_that_is_called_acknowledges_a_message(rt: HostRuntime) -> Result<(), Fail> {
    assert!(rt; talks(rt.alloc(), CALLED, "0", A_CALL, CALLED_REPORT)?);
    Ok(())
}

#[test]
fn a_node_calls_and_sends_its_message_once(rt: HostRuntime) -> Result<(), Fail> {
    assert!(rt; talks(rt.alloc(), CALLING, "1", A_CALL, CALLING_REPORT)?);
    Ok(())
}

#[test]
fn of_crossed_calls_the_one_that_prevails_opens(rt: HostRuntime) -> Result<(), Fail> {
    assert!(rt; talks(rt.alloc(), ANNA, "0", CROSSED_CALLS, ANNA_REPORT)?);
    Ok(())
}

#[test]
fn of_crossed_calls_the_other_one_is_given_up(rt: HostRuntime) -> Result<(), Fail> {
    assert!(rt; talks(rt.alloc(), BERT, "1", CROSSED_CALLS, BERT_REPORT)?);
    Ok(())
}

#[test]
fn a_node_calls_two_others(rt: HostRuntime) -> Result<(), Fail> {
    assert!(rt; talks(rt.alloc(), CALLS_TWO, "2", TWO_CALLS, CALLS_TWO_REPORT)?);
    Ok(())
}

#[test]
fn two_nodes_are_called_by_one(rt: HostRuntime) -> Result<(), Fail> {
    assert!(rt; talks(rt.alloc(), FIRST, "0", TWO_CALLS, FIRST_REPORT)?);
    assert!(rt; talks(rt.alloc(), SECOND, "1", TWO_CALLS, SECOND_REPORT)?);
    Ok(())
}
