//! What those in memory give, in which order, and what they tell of it.

use rtmfp_base::{Memory, Message};
use rtmfp_forms::Address;
use rtmfp_host::{
    Begun, Bound, ChildEnd, Drawn, Entropy, FaultyEntropy, FaultyLink, FaultySpawner, Given, Got,
    Link, LinkCall, MemoryEntropy, MemoryLink, MemoryMoments, MemorySpawner, Moments, Ran, Sent,
    Spawner,
};
use std::alloc::{AllocError, Global};
use std::test::Fail;

/// The numbers of one call that is to fail.
fn only(alloc: Global, number: u64) -> Result<Vec<u64>, AllocError> {
    let mut numbers = Vec::new(alloc);
    numbers.push(number)?;
    Ok(numbers)
}

/// A place, told apart by its port.
fn place(port: u16) -> Address {
    Address::v4([10, 0, 0, 1], port)
}

/// What a receive until moment 50 gave: a datagram's length and first byte, or what else came.
#[derive(Clone, Copy, PartialEq, Eq)]
enum Came {
    Bytes(usize, u8),
    Quiet,
    Failed,
}

fn receive_once(link: &mut FaultyLink) -> Came {
    let mut buf = [0; 2048];
    match link.receive(50, &mut buf) {
        Got::Datagram { length, .. } => Came::Bytes(length, buf[0]),
        Got::Quiet => Came::Quiet,
        Got::Failed => Came::Failed,
    }
}

/// A link that has one datagram of three bytes to give, and fails at its second bind or receive
/// and at its first send.
fn faulty_link(alloc: Global) -> Result<FaultyLink, Fail> {
    let datagram = Given::Datagram {
        from: place(2),
        bytes: Message::copy_of(alloc, b"abc")?,
    };
    let left = Vec::from_array(alloc, [datagram])?;
    let link = MemoryLink::new(alloc, left);
    Ok(FaultyLink::new(link, only(alloc, 2)?, only(alloc, 1)?))
}

/// A call as one number: of a bind its port, of a receive its moment, of a send its port, its
/// length and whether it was done.
fn number_of(call: &LinkCall) -> u64 {
    match call {
        LinkCall::Bind { at } => u64::from(at.port),
        LinkCall::Receive { until } => *until,
        LinkCall::Send { to, bytes, done } => {
            let length = bytes.len().min(9) as u64;
            u64::from(to.port) * 100 + length * 10 + u64::from(*done)
        }
    }
}

#[test]
fn a_link_gives_its_places_in_order(rt: HostRuntime) -> Result<(), Fail> {
    let mut link = faulty_link(rt.alloc())?;
    let bound = link.bind(&place(1)) == Bound::Done;
    let fails = receive_once(&mut link) == Came::Failed;
    let gives = receive_once(&mut link) == Came::Bytes(3, b'a');
    let quiet = receive_once(&mut link) == Came::Quiet;
    let lost = link.send(&place(3), b"xy") == Sent::Failed;
    let sent = link.send(&place(4), b"z") == Sent::Done;
    assert!(rt; bound && fails && gives && quiet && lost && sent);
    let told = match link.calls() {
        Some(calls) => calls.iter().map(number_of).eq([1, 50, 50, 50, 320, 411]),
        None => false,
    };
    assert!(rt; told);
    Ok(())
}

#[test]
fn a_clock_gives_its_last_moment_again(rt: HostRuntime) -> Result<(), Fail> {
    let mut clock = MemoryMoments::new(Vec::from_array(rt.alloc(), [5, 7])?);
    let (first, second, third) = (clock.now(), clock.now(), clock.now());
    let none = MemoryMoments::new(Vec::new(rt.alloc())).now();
    assert!(rt; first == 5 && second == 7 && third == 7 && none == 0);
    Ok(())
}

/// A random source that has one block to give, and fails at its first draw.
fn faulty_entropy(alloc: Global) -> Result<FaultyEntropy, Fail> {
    let blocks = MemoryEntropy::new(Vec::from_array(alloc, [[7; 64]])?);
    Ok(FaultyEntropy::new(blocks, only(alloc, 1)?))
}

/// Whether a random source gives a block of this byte.
fn draws(source: &mut FaultyEntropy, byte: u8) -> bool {
    let mut block = [1; 64];
    source.draw(&mut block) == Drawn::Done && block == [byte; 64]
}

#[test]
fn a_random_source_gives_its_blocks_and_then_zeros(rt: HostRuntime) -> Result<(), Fail> {
    let mut source = faulty_entropy(rt.alloc())?;
    let fails = source.draw(&mut [1; 64]) == Drawn::Failed;
    assert!(rt; fails && draws(&mut source, 7) && draws(&mut source, 0));
    Ok(())
}

/// An end of a child.
fn end(alloc: Global, status: i32, text: &[u8]) -> Result<ChildEnd, Memory> {
    Ok(ChildEnd {
        status,
        text: Message::copy_of(alloc, text)?,
    })
}

/// Whether a wait gives this.
fn ends_with(ran: &Ran, wanted: i32, written: &[u8]) -> bool {
    match ran {
        Ran::Ended { status, text } => *status == wanted && text.bytes() == written,
        Ran::Failed => false,
        Ran::Memory => false,
    }
}

/// Starts a child and waits for it; where none was started, what the start gave.
#[tactic(auto, using(rtmfp_host::proofs::Numbering::started))]
fn start_and_wait<P: Spawner>(spawner: &mut P, words: &[String]) -> Result<(u32, Ran), Begun> {
    match spawner.start(words) {
        Begun::Child(number) => Ok((number, spawner.wait(number))),
        Begun::Failed => Err(Begun::Failed),
        Begun::Memory => Err(Begun::Memory),
    }
}

/// Whether a child of this number was started, and its wait gave this.
fn gives(found: &Result<(u32, Ran), Begun>, number: u32, status: i32, text: &[u8]) -> bool {
    match found {
        Ok((child, ran)) => *child == number && ends_with(ran, status, text),
        Err(_) => false,
    }
}

/// Whether a start failed.
fn fails(found: &Result<(u32, Ran), Begun>) -> bool {
    match found {
        Ok(_) => false,
        Err(begun) => *begun == Begun::Failed,
    }
}

/// A spawner of two children, whose second start fails.
fn faulty_spawner(alloc: Global) -> Result<FaultySpawner, Fail> {
    let ends = Vec::from_array(alloc, [end(alloc, 0, b"a")?, end(alloc, 6, b"b")?])?;
    let children = MemorySpawner::new(alloc, ends);
    Ok(FaultySpawner::new(children, only(alloc, 2)?, Vec::new(alloc)))
}

#[test]
fn a_spawner_gives_the_end_of_each_child(rt: HostRuntime) -> Result<(), Fail> {
    let mut spawner = faulty_spawner(rt.alloc())?;
    let words = Vec::from_array(rt.alloc(), [String::from_str(rt.alloc(), "serve")?])?;
    let first = start_and_wait(&mut spawner, words.as_slice());
    let second = start_and_wait(&mut spawner, words.as_slice());
    let third = start_and_wait(&mut spawner, words.as_slice());
    let fourth = start_and_wait(&mut spawner, words.as_slice());
    assert!(rt; gives(&first, 0, 0, b"a") && fails(&second));
    assert!(rt; gives(&third, 1, 6, b"b") && gives(&fourth, 2, 0, b""));
    Ok(())
}
