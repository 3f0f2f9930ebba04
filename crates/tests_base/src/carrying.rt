//! A long message that goes from one end to another: it is handed over whole, and once, whatever
//! becomes of its datagrams.

use crate::by_hand::{Ends, draws};
use endpoint::{Endpoint, Entry, MessageOptions, Outbox};
use rtmfp_forms::Address;
use std::alloc::{AllocError, Global};
use std::test::Fail;

/// What becomes of the datagrams that an end sends in a round.
#[derive(Clone, Copy, PartialEq, Eq)]
pub(crate) enum Path {
    Whole,
    TenthIsLost,
    Reversed,
}

/// A message of as many bytes as one may have.
fn long_message(alloc: Global) -> Result<Vec<u8>, AllocError> {
    let mut message = Vec::new(alloc);
    for index in 0..1048576_u32 {
        message.push((index % 251) as u8)?;
    }
    Ok(message)
}

fn outbox(alloc: Global) -> Result<Outbox, Fail> {
    Ok(Outbox::new(alloc, 4).ok().ok_or("an outbox")?)
}

/// Adds the datagrams of an outbox.
fn push_sent(alloc: Global, out: &Outbox, sent: &mut Vec<Vec<u8>>) -> Result<(), Fail> {
    for entry in out.entries() {
        if let Entry::Out { datagram, .. } = entry {
            sent.push(Vec::from_slice(alloc, datagram.bytes())?)?;
        }
    }
    Ok(())
}

/// How often a message is handed over; each other one counts a hundred times.
fn handed_in(out: &Outbox, message: &[u8]) -> u32 {
    let mut count = 0_u32;
    for entry in out.entries() {
        if let Entry::Handed { message: found, .. } = entry {
            let is_this = found.bytes() == message;
            count = count.saturating_add(if is_this { 1 } else { 100 });
        }
    }
    count
}

/// The path between the ends, and how many datagrams were sent on it.
#[derive(Clone, Copy)]
struct Way {
    path: Path,
    count: u32,
}

impl Way {
    /// Whether the next datagram arrives.
    fn has_next(&mut self) -> bool {
        self.count = self.count.saturating_add(1);
        self.path != Path::TenthIsLost || self.count % 10 != 0
    }

    /// Those of these datagrams that arrive, in the order in which they do.
    fn arriving(&mut self, alloc: Global, sent: Vec<Vec<u8>>) -> Result<Vec<Vec<u8>>, Fail> {
        let mut arrived = Vec::new(alloc);
        for datagram in sent {
            if self.has_next() {
                arrived.push(datagram)?;
            }
        }
        if self.path == Path::Reversed {
            arrived.as_mut_slice().reverse();
        }
        Ok(arrived)
    }
}

/// Gives an end a datagram.
fn give(
    end: &mut Endpoint,
    from: u8,
    moment: u64,
    datagram: &mut [u8],
    out: &mut Outbox,
) -> Result<(), Fail> {
    if datagram.len() > 2048 {
        return Err(Fail::from("a datagram that no end is given"));
    }
    let from = Address::v4([10, 0, 0, from], 1935);
    match end.receive(from, moment, datagram, &draws(8), out) {
        Ok(()) => Ok(()),
        Err(_) => Err(Fail::from("a datagram found no memory")),
    }
}

/// Gives an end a datagram, and adds what it sends. Tells how often it hands over the message.
fn pass_one(
    alloc: Global,
    end: &mut Endpoint,
    from: u8,
    moment: u64,
    datagram: &mut [u8],
    message: &[u8],
    sent: &mut Vec<Vec<u8>>,
) -> Result<u32, Fail> {
    let mut out = outbox(alloc)?;
    give(end, from, moment, datagram, &mut out)?;
    push_sent(alloc, &out, sent)?;
    Ok(handed_in(&out, message))
}

/// Gives an end these datagrams, and adds what it sends. Tells how often it hands over the message.
fn pass(
    alloc: Global,
    end: &mut Endpoint,
    from: u8,
    moment: u64,
    datagrams: &mut [Vec<u8>],
    message: &[u8],
    sent: &mut Vec<Vec<u8>>,
) -> Result<u32, Fail> {
    let mut handed = 0_u32;
    for datagram in datagrams.iter_mut() {
        let bytes = datagram.as_mut_slice();
        let more = pass_one(alloc, end, from, moment, bytes, message, sent)?;
        handed = handed.saturating_add(more);
    }
    Ok(handed)
}

/// Those of these datagrams that arrive come to an end. Tells how often it hands over the message,
/// and gives what it sends.
fn go_over(
    alloc: Global,
    way: &mut Way,
    end: &mut Endpoint,
    from: u8,
    moment: u64,
    datagrams: Vec<Vec<u8>>,
    message: &[u8],
) -> Result<(u32, Vec<Vec<u8>>), Fail> {
    let mut arrived = way.arriving(alloc, datagrams)?;
    let mut sent = Vec::new(alloc);
    let datagrams = arrived.as_mut_slice();
    let handed = pass(alloc, end, from, moment, datagrams, message, &mut sent)?;
    Ok((handed, sent))
}

/// What an end sends at a moment by itself.
fn due(alloc: Global, end: &mut Endpoint, moment: u64) -> Result<Vec<Vec<u8>>, Fail> {
    let mut out = outbox(alloc)?;
    if end.tick(moment, &draws(4), &mut out).is_err() {
        return Err(Fail::from("a tick found no memory"));
    }
    let mut sent = Vec::new(alloc);
    push_sent(alloc, &out, &mut sent)?;
    Ok(sent)
}

/// The caller does what is due, what it sends comes to the answerer, and the answers come back.
/// Tells how often the message is handed over.
fn round(
    alloc: Global,
    ends: &mut Ends,
    way: &mut Way,
    moment: u64,
    message: &[u8],
) -> Result<u32, Fail> {
    let sent = due(alloc, &mut ends.a, moment)?;
    let (handed, acks) = go_over(alloc, way, &mut ends.b, 1, moment, sent, message)?;
    let _ = go_over(alloc, way, &mut ends.a, 2, moment, acks, message)?;
    Ok(handed)
}

fn queues(alloc: Global, end: &mut Endpoint, message: &[u8]) -> Result<(), Fail> {
    let mut out = outbox(alloc)?;
    let options = MessageOptions {
        deadline: None,
        resends: None,
    };
    match end.queue(3, 0, message, options, &mut out) {
        Ok(_) => Ok(()),
        Err(_) => Err(Fail::from("a message isn't queued")),
    }
}

/// How often a message is handed over, in a round each 50 milliseconds, up to 20 rounds after the
/// first time.
fn rounds(alloc: Global, ends: &mut Ends, path: Path, message: &[u8]) -> Result<u32, Fail> {
    let mut way = Way { path, count: 0 };
    let (mut handed, mut behind) = (0_u32, 0_u32);
    for index in 0..2000_u64 {
        let more = round(alloc, ends, &mut way, index * 50, message)?;
        handed = handed.saturating_add(more);
        if handed > 0 {
            behind = behind.saturating_add(1);
        }
        if behind > 20 {
            return Ok(handed);
        }
    }
    Ok(handed)
}

/// How often a long message is handed over that the caller queues in its first flow.
pub(crate) fn handed_over(alloc: Global, ends: &mut Ends, path: Path) -> Result<u32, Fail> {
    let message = long_message(alloc)?;
    queues(alloc, &mut ends.a, message.as_slice())?;
    rounds(alloc, ends, path, message.as_slice())
}
