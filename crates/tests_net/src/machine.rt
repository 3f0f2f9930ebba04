//! Each adapter with the real thing.

use rtmfp_forms::Address;
use rtmfp_host::{Begun, Bound, Drawn, Entropy, Got, Link, Moments, Ran, Sent, Spawner};
use rtmfp_net::{Generator, ProgramSpawner, SystemClock, UdpLink};
use std::alloc::{AllocError, Global};
use std::net::UdpSocket;
use std::process;
use std::test::Fail;

/// This machine, at a port.
fn here(port: u16) -> Address {
    Address::v4([127, 0, 0, 1], port)
}

/// A host of IPv6, all of whose bytes but the last are 0.
fn v6_host(last: u8, port: u16) -> Address {
    Address {
        v6: true,
        origin: 0,
        host: [0, 0, 0, 0, 0, 0, 0, 0, 0, 0, 0, 0, 0, 0, 0, last],
        port,
    }
}

/// This machine by IPv4 or by IPv6, or all of it by IPv6, at a port.
fn host(name: &str, port: u16) -> Address {
    match name {
        "4" => here(port),
        "6" => v6_host(1, port),
        _ => v6_host(0, port),
    }
}

/// Binds a link to the first free port of some that follow each other.
fn bind_somewhere(link: &mut UdpLink<HostRuntime>, name: &str, first: u16) -> Option<u16> {
    for port in first..first.saturating_add(20) {
        if link.bind(&host(name, port)) == Bound::Done {
            return Some(port);
        }
    }
    None
}

/// A link, and the place at which it is reached.
#[derive(Drop)]
struct Node {
    link: UdpLink<HostRuntime>,
    at: Address,
}

/// A link at a free port of a host, and reached by another one.
fn node_at(rt: &HostRuntime, bound: &str, reached: &str) -> Result<Node, Fail> {
    let first = 20_000 + (process::id(rt.process()) % 40_000) as u16;
    let mut link = UdpLink::new(rt.clone()?);
    let port = bind_somewhere(&mut link, bound, first).ok_or("no port")?;
    Ok(Node {
        link,
        at: host(reached, port),
    })
}

/// A link at a free port of this machine.
fn bound_node(rt: &HostRuntime) -> Result<Node, Fail> {
    node_at(rt, "4", "4")
}

/// The moment so many milliseconds from now on.
fn moment_in(rt: &HostRuntime, limit: u64) -> u64 {
    SystemClock::new(rt).now().saturating_add(limit)
}

/// Whether a link hears a datagram of these bytes, from here, before a moment.
fn hears(link: &mut UdpLink<HostRuntime>, until: u64, from: Address, bytes: &[u8]) -> bool {
    let mut buf = [0; 2048];
    match link.receive(until, &mut buf) {
        Got::Datagram {
            from: place,
            length,
        } => { place == from && buf.get(..length) == Some(bytes) }
        Got::Quiet => false,
        Got::Failed => false,
    }
}

/// Whether one hears whole, or up to its 2,048 bytes, what the other sends it.
fn goes_over(rt: &HostRuntime, one: &mut Node, other: &mut Node, bytes: &[u8]) -> bool {
    let heard = bytes.get(..2048).unwrap_or(bytes);
    let until = moment_in(rt, 10_000);
    one.link.send(&other.at, bytes) == Sent::Done && hears(&mut other.link, until, one.at, heard)
}

/// How long the datagrams are that go there and back. What one has above 2,048 bytes is lost.
const LENGTHS: &str = "1 1200 2048 2049";

/// So many bytes, of which those near to each other differ.
fn bytes_of(alloc: Global, length: usize) -> Result<Vec<u8>, AllocError> {
    let mut bytes = Vec::new(alloc);
    for place in 0..length {
        bytes.push((place % 251) as u8)?;
    }
    Ok(bytes)
}

/// Whether a datagram of so many bytes goes there and back.
fn goes(rt: &HostRuntime, one: &mut Node, other: &mut Node, length: &str) -> Result<bool, Fail> {
    let bytes = bytes_of(rt.alloc(), length.parse::<usize>().unwrap_or(0))?;
    let there = goes_over(rt, one, other, bytes.as_slice());
    Ok(there && goes_over(rt, other, one, bytes.as_slice()))
}

#[test]
fn datagrams_go_there_and_back(rt: HostRuntime) -> Result<(), Fail> {
    let mut one = bound_node(&rt)?;
    let mut other = bound_node(&rt)?;
    for length in LENGTHS.split(' ') {
        assert!(rt; goes(&rt, &mut one, &mut other, length)?, "{length} bytes");
    }
    Ok(())
}

/// Rows: where one link is bound, where another is, and by which host they reach each other. A link
/// that is bound to all of the machine is heard, and told of, by either kind.
const KINDS: &str = "\
4 all 4|all 4 4|all all 4|6 6 6|6 all 6|all all 6";

/// Whether two links that are bound so reach each other.
fn reach_each_other(rt: &HostRuntime, row: &str) -> Result<bool, Fail> {
    let (one, rest) = sides(row, " ");
    let (other, reached) = sides(rest, " ");
    let mut one = node_at(rt, one, reached)?;
    let mut other = node_at(rt, other, reached)?;
    goes(rt, &mut one, &mut other, "1")
}

/// Of a machine without IPv6 only that is asked which it has.
#[test]
fn a_link_of_ipv6_hears_ipv4(rt: HostRuntime) -> Result<(), Fail> {
    let has_v6 = UdpSocket::bind(&rt, "[::1]:0").is_ok();
    for row in KINDS.split('|') {
        assert!(rt; !has_v6 || reach_each_other(&rt, row)?, "{row}");
    }
    Ok(())
}

#[test]
fn a_place_is_taken_once(rt: HostRuntime) -> Result<(), Fail> {
    let node = bound_node(&rt)?;
    assert!(rt; UdpLink::new(rt.clone()?).bind(&node.at) == Bound::Failed);
    Ok(())
}

/// The milliseconds since a moment.
fn since(rt: &HostRuntime, moment: u64) -> u64 {
    SystemClock::new(rt).now().saturating_sub(moment)
}

#[test]
fn a_link_waits_until_the_moment(rt: HostRuntime) -> Result<(), Fail> {
    let mut node = bound_node(&rt)?;
    let began = moment_in(&rt, 0);
    let quiet = node.link.receive(began.saturating_add(60), &mut [0; 2048]) == Got::Quiet;
    assert!(rt; quiet && since(&rt, began) >= 60);
    Ok(())
}

#[test]
fn a_link_waits_no_longer_than_for_a_datagram(rt: HostRuntime) -> Result<(), Fail> {
    let mut node = bound_node(&rt)?;
    let began = moment_in(&rt, 0);
    let sent = node.link.send(&node.at, b"hello") == Sent::Done;
    let heard = hears(
        &mut node.link,
        began.saturating_add(20_000),
        node.at,
        b"hello",
    );
    assert!(rt; sent && heard && since(&rt, began) < 10_000);
    Ok(())
}

#[test]
fn a_link_without_a_socket_fails(rt: HostRuntime) -> Result<(), Fail> {
    let mut link = UdpLink::new(rt.clone()?);
    let received = link.receive(0, &mut [0; 2048]) == Got::Failed;
    assert!(rt; received && link.send(&here(9), b"x") == Sent::Failed);
    Ok(())
}

#[test]
fn the_clock_goes_on(rt: HostRuntime) {
    let mut clock = SystemClock::new(&rt);
    let first = clock.now();
    let second = clock.now();
    assert!(rt; first > 0 && first <= second);
}

/// The first 32 bytes of the stream of a key of zeros (RFC 8439, appendix A.1, vector 1).
const FIRST: [u8; 32] = [
    0x76, 0xb8, 0xe0, 0xad, 0xa0, 0xf1, 0x3d, 0x90, 0x40, 0x5d, 0x6a, 0xe5, 0x53, 0x86, 0xbd, 0x28,
    0xbd, 0xd2, 0x19, 0xb8, 0xa0, 0x8d, 0xed, 0x1a, 0xa8, 0x36, 0xef, 0xcc, 0x8b, 0x77, 0x0d, 0xc7,
];

/// The first 32 bytes of its second block (RFC 8439, appendix A.1, vector 2).
const SECOND: [u8; 32] = [
    0x9f, 0x07, 0xe7, 0xbe, 0x55, 0x51, 0x38, 0x7a, 0x98, 0xba, 0x97, 0x7c, 0x73, 0x2d, 0x08, 0x0d,
    0xcb, 0x0f, 0x29, 0xa0, 0x48, 0xe3, 0x65, 0x69, 0x12, 0xc6, 0x53, 0x3e, 0x32, 0xee, 0x7a, 0xed,
];

#[test]
fn a_generator_gives_its_stream(rt: HostRuntime) {
    let mut generator = Generator::of_key([0; 32]);
    let mut block = [0; 64];
    let first = generator.draw(&mut block) == Drawn::Done && block.starts_with(&FIRST);
    let second = generator.draw(&mut block) == Drawn::Done && block.starts_with(&SECOND);
    assert!(rt; first && second);
    assert!(rt; Generator::missing().draw(&mut block) == Drawn::Failed);
}

#[test]
fn two_generators_of_the_machine_differ(rt: HostRuntime) {
    let (mut one, mut other) = ([0; 64], [0; 64]);
    let first = Generator::keyed(&rt).draw(&mut one) == Drawn::Done;
    let second = Generator::keyed(&rt).draw(&mut other) == Drawn::Done;
    assert!(rt; first && second && one != other);
}

/// What a program ends with that is started with these words, where it can be.
fn run(rt: &HostRuntime, program: &str, words: &[String]) -> Result<Option<Ran>, Fail> {
    let alloc = rt.alloc();
    let program = String::from_str(alloc, program)?;
    let mut spawner = ProgramSpawner::new(rt.clone()?, alloc, program);
    match spawner.start(words) {
        Begun::Child(child) => Ok(Some(spawner.wait(child))),
        Begun::Failed => Ok(None),
        Begun::Memory => Ok(None),
    }
}

/// Whether it ended so.
fn ended(ran: &Option<Ran>, wanted: i32, written: &[u8]) -> bool {
    match ran {
        Some(Ran::Ended { status, text }) => *status == wanted && text.bytes() == written,
        _ => false,
    }
}

/// Rows: a program and its words with commas between them, its status, and what it writes. `cat`
/// writes what its standard input has.
const CHILDREN: &str = "\
printf,%s|,b c,d,,e = 0|b c|d||e|
cat,- = 0|
false,- = 1|
sh,-c,printf no; exit 7 = 7|no
sh,-c,kill -9 $$ = 137|
sh,-c,kill -15 $$ = 143|
";

/// Two texts, around a mark.
fn sides<'a>(text: &'a str, mark: &str) -> (&'a str, &'a str) {
    text.split_once(mark).unwrap_or(("", ""))
}

/// The words of a row.
fn words_of(alloc: Global, text: &str) -> Result<Vec<String>, AllocError> {
    let mut words = Vec::new(alloc);
    for word in text.split(',') {
        words.push(String::from_str(alloc, word)?)?;
    }
    Ok(words)
}

/// Whether a program with these words ends so.
fn ends(rt: &HostRuntime, line: &str, end: &str) -> Result<bool, Fail> {
    let (program, words) = sides(line, ",");
    let (status, written) = sides(end, "|");
    let words = words_of(rt.alloc(), words)?;
    let ran = run(rt, program, words.as_slice())?;
    let status = status.parse::<i32>().unwrap_or(-1);
    Ok(ended(&ran, status, written.as_bytes()))
}

#[test]
fn programs_are_started_and_waited_for(rt: HostRuntime) -> Result<(), Fail> {
    for row in CHILDREN.lines() {
        let (line, end) = sides(row, " = ");
        assert!(rt; ends(&rt, line, end)?, "{line}");
    }
    assert!(rt; run(&rt, "/no/such/program", &[])?.is_none());
    Ok(())
}

/// A word of so many letters, of which those near to each other differ.
fn long_word(alloc: Global, length: usize) -> Result<String, AllocError> {
    let mut word = String::new(alloc);
    for place in 0..length {
        word.push(char::from(b'a' + (place % 23) as u8))?;
    }
    Ok(word)
}

/// A pipe of the system holds 65,536 bytes.
#[test]
fn a_child_writes_more_than_a_pipe_holds(rt: HostRuntime) -> Result<(), Fail> {
    let word = long_word(rt.alloc(), 100_000)?;
    let words = Vec::from_array(rt.alloc(), [word.clone()?])?;
    let ran = run(&rt, "printf", words.as_slice())?;
    assert!(rt; ended(&ran, 0, word.as_bytes()));
    Ok(())
}

/// What a child does: it writes a megabyte of its letter. The first one ends behind the others,
/// which leave a folder each.
const WRITES: &str = "-c,head -c 1048576 /dev/zero | tr '\\0' $0
at=/tmp/rtmfp-$PPID
[ $0 = a ] || exec mkdir $at-$0
for other in b c; do
  tries=0
  until rmdir $at-$other 2>/dev/null; do
    tries=$((tries + 1))
    [ $tries -lt 300 ] || exit 1
    sleep 0.1
  done
done";

/// Starts the child of a letter.
fn start_writer(
    alloc: Global,
    spawner: &mut ProgramSpawner<HostRuntime>,
    letter: u8,
) -> Result<Begun, AllocError> {
    let mut words = words_of(alloc, WRITES)?;
    let mut name = String::new(alloc);
    name.push(char::from(letter))?;
    words.push(name)?;
    Ok(spawner.start(words.as_slice()))
}

/// Whether a child ended with 0 and a megabyte of its letter.
fn wrote_all(ran: &Ran, letter: u8) -> bool {
    match ran {
        Ran::Ended { status, text } => {
            *status == 0
                && text.len() == 1_048_576
                && text.bytes().iter().all(|byte| *byte == letter)
        }
        _ => false,
    }
}

#[test]
fn no_child_waits_for_a_full_pipe(rt: HostRuntime) -> Result<(), Fail> {
    let alloc = rt.alloc();
    let shell = String::from_str(alloc, "sh")?;
    let mut spawner = ProgramSpawner::new(rt.clone()?, alloc, shell);
    for child in 0..3u8 {
        let begun = start_writer(alloc, &mut spawner, b'a' + child)?;
        assert!(rt; begun == Begun::Child(u32::from(child)));
    }
    for child in 0..3u8 {
        assert!(rt;
            wrote_all(&spawner.wait(u32::from(child)), b'a' + child),
            "{child}"
        );
    }
    Ok(())
}

#[test]
fn the_clock_counts_milliseconds(rt: HostRuntime) -> Result<(), Fail> {
    let words = words_of(rt.alloc(), "0.06")?;
    let began = moment_in(&rt, 0);
    let slept = ended(&run(&rt, "sleep", words.as_slice())?, 0, b"");
    let passed = since(&rt, began);
    assert!(rt; slept && passed >= 60 && passed < 10_000);
    Ok(())
}
