//! Nodes over objects in memory that open a session each, by datagrams that another program made:
//! a node that calls and sends a message, and one that introduces.

ghost use Rattle.std.specs.Prelude.{IfOk};
ghost use Rattle.rtmfp_host.specs.Linking.{IsShortGiven};

use crate::serving::words_of;
use rtmfp_base::Message;
use rtmfp_forms::Address;
use rtmfp_host::{Given, MemoryEntropy, MemoryLink, MemoryMoments, MemorySink};
use rtmfp_node::{Served, serve};
use rtmfp_words::read_serve_words;
use std::alloc::{AllocError, Global};
use std::test::Fail;

/// What `scripts/baseline/node.py` prints first: what a node is brought turn by turn, and behind
/// which last byte of an address.
const TO_A_CALLER: &str = "\
2 64e1eeedf60af44292eb1aaf8635f37d614a3134aad5e1db1cb4861e000000000000000121d4f22a9a970dcd3870a72ce1281bc71eaab18ed3d8ba2fdd36a81f6c8450feab9be1affd3cb38fdb8ae1663e412c
2 f4ad09caa2c61e68566b17ab83b913cf629b40faaad5e1db1cb4861e0000000000000002554b90d81f2f632702cfbedd49150de749f395f3bb7ebc6c8f6bcc6ec4ffa03fed031db87d6e6a5cbc8e35943c7bc86f2ca954eb5cda367ceabe560e3fecf71cc3204001422f397f327773caab5aaa4a1da37181af32eebb9cedff17de19db7ce34b971b140a4af9d81d8e98683b5802a0
2 8ce71d67b14b9f813dac82efb2c47f6518bb65140000000000000000000000000000000166b5867335e5e889f26c69f1a90d
2 e20ac29de2b1651e00bba78a8b4ccba4ac99626e00000000000000000000000000000002b418c5b3
";

/// A node that opens an attempt, and sends a message in the session that it opens.
const CALLER: &str =
    "serve 10.0.0.1:1935 P caller aad5e1db1cb4861e40321d0c242b1453632c075eb76a2c583597fbfa3d796667@10.0.0.2:1935 --turns 4 --instance 30313233343536373839616263646566 --send 68656c6c6f";

/// The message is queued behind the datagram that opens the session, and goes out in the same turn.
const CALLER_REPORT: &str = "\
0 self started peer=aad5e1db1cb4861e40321d0c242b1453632c075eb76a2c583597fbfa3d796667 n=1 near=9 ni=ab
0 self sent 1 10.0.0.2:1935 ihello
1 self sent 2 10.0.0.2:1935 iikeying
2 self opened peer=aad5e1db1cb4861e40321d0c242b1453632c075eb76a2c583597fbfa3d796667 n=1 near=9 far=88 ni=ab nr=5 k=0
2 self sent 3 10.0.0.2:1935 ping
2 self flow near=9 id=0
2 self queued near=9 flow=0 seq=1 length=5
2 self sent 4 10.0.0.2:1935 data
3 self handed near=9 flow=0 seq=1 6869
3 self sent 5 10.0.0.2:1935 ackranges
4 self ended near=9 far
4 self sent 6 10.0.0.2:1935 closeack
";

/// What it prints then.
const TO_AN_INTRODUCER: &str = "\
2 8bad75ec01f2ab568a5fdebab5419e564c39162caad5e1db1cb4861e0000000000000001219cf2978a970d802770a72ce1281bc71ea8bb8ed3dbbf906dc8a1dc0144e7cc16d74c4fd716b5ecadc9a7317f106b06f88d25b3ec5c90dc179e5e2d44a024007add7c2f1dc66106d4258d3dfd9d745d4255388496bad60191aa72de56e9bbb37262255085354cae14c76e69e499339c4614d61b5678f63da1453cb5875c3d6d3a17422617fe795c2be9df135a9e9a414e0b5848c2744234c0fc
2 8517e495a2b0bcbe27a75822b8513cb484d303ff00000000000000000000000000000001b361714a
3 cbb0ec59f17470163ac49c4f45d8c36a21d5cf3b51ea39e39d7313e100000000000000012a3d0b34134862ca5e9aac62b224bc759b7cef57c2668ccffbb105303545a113eaf514c64bb9d8f2e5c33621649b56b843688dc8ba4b
3 8a74567091b24d631bc61b1303dc4ed9b55d8cf251ea39e39d7313e10000000000000002b75e44e1258864458ed9a2944425d304eb992a5f716e83e95577b0058409366a3130f9d6685798af9e3007438b89275de40d9300a305
";

const INTRODUCER: &str =
    "serve 10.0.0.1:1935 P caller --turns 4 --introduce --instance 30313233343536373839616263646566";

/// It introduces from the beginning, and forwards a hello once the session is kept.
const INTRODUCER_REPORT: &str = "\
1 self born peer=aad5e1db1cb4861e40321d0c242b1453632c075eb76a2c583597fbfa3d796667 n=1 near=9 far=77 ni=5 nr=ab k=0
1 self sent 1 10.0.0.2:1935 rikeying
2 self confirmed near=9
2 self sent 2 10.0.0.2:1935 pingreply
3 self sent 3 10.0.0.2:1935 fihello
4 self drop 1 not-selected
";

/// A datagram of at most 2,048 bytes.
pub(crate) fn datagram(alloc: Global, from: Address, bytes: &[u8]) -> Result<Given, AllocError>
    ensures { IfOk result IsShortGiven }
{
    if bytes.len() > 2048 {
        return Err(AllocError);
    }
    match Message::copy_of(alloc, bytes) {
        Ok(bytes) => Ok(Given::Datagram { from, bytes }),
        Err(_) => Err(AllocError),
    }
}

/// A datagram that a link gives, of a line.
fn given(alloc: Global, line: &str) -> Result<Given, Fail>
    ensures { IfOk result IsShortGiven }
{
    let (last, digits) = line.split_once(' ').unwrap_or(("", ""));
    let bytes = hex::decode(alloc, digits.as_bytes()).ok().ok_or("digits")?;
    let last = last.parse::<u8>().unwrap_or(0);
    let from = Address::v4([10, 0, 0, last], 1935);
    Ok(datagram(alloc, from, bytes.as_slice())?)
}

/// A link that gives the datagrams of these lines, one a turn.
fn link_of(alloc: Global, lines: &str) -> Result<MemoryLink, Fail> {
    let mut left = Vec::new(alloc);
    for line in lines.lines() {
        left.push(given(alloc, line)?)?;
    }
    Ok(MemoryLink::new(alloc, left))
}

/// A block with the secret of cookies, and one with a nonce and a session ID.
fn entropy(alloc: Global) -> Result<MemoryEntropy, Fail> {
    let mut second = [0; 64];
    second[15] = 0xab;
    second[51] = 9;
    Ok(MemoryEntropy::new(Vec::from_array(alloc, [[9; 64], second])?))
}

/// Whether a node by these words that is brought these datagrams ends with Done and writes this.
fn reports(alloc: Global, line: &str, brought: &str, report: &str) -> Result<bool, Fail> {
    let words = words_of(alloc, line)?;
    let mut link = link_of(alloc, brought)?;
    let mut entropy = entropy(alloc)?;
    let mut clock = MemoryMoments::new(Vec::new(alloc));
    let mut sink = MemorySink::new(alloc);
    let served = match read_serve_words(alloc, words.as_slice()) {
        Ok(told) => serve(alloc, &told, &mut link, &mut clock, &mut entropy, &mut sink),
        Err(_) => Served::Memory,
    };
    Ok(served == Served::Done && sink.written() == Some(report.as_bytes()))
}

#[test]
fn a_node_opens_a_session_and_sends_its_message(rt: HostRuntime) -> Result<(), Fail> {
    assert!(rt; reports(rt.alloc(), CALLER, TO_A_CALLER, CALLER_REPORT)?);
    Ok(())
}

#[test]
fn a_node_introduces_its_peer(rt: HostRuntime) -> Result<(), Fail> {
    assert!(rt; reports(rt.alloc(), INTRODUCER, TO_AN_INTRODUCER, INTRODUCER_REPORT)?);
    Ok(())
}
