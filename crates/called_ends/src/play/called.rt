//! A call of an end, which may be made again.

use counted_secrets::secret_after;
use endpoint::{
    CallRefusal, Draws, Endpoint, MessageOptions, OpenRefusal, Outbox, RowRefusal, SeekRefusal,
};
use identity::{Epd, ServiceName};
use rtmfp_base::Message;
use rtmfp_forms::Address;
use rtmfp_script::{AimLine, CallLine, Candidates};

/// The longest datagram that an end is given.
const LONGEST: usize = 2048;

/// What is done with an end.
#[derive(Drop)]
pub(crate) enum Deed {
    /// A line of a script that brings no message and names no other end.
    Call {
        call: CallLine,
    },
    /// A line of a script that names a peer, with the fingerprint of that.
    Aim {
        aim: AimLine,
        peer: [u8; 32],
        addresses: Candidates,
    },
    /// A message is queued.
    Queue {
        near: u32,
        flow: u64,
        options: MessageOptions,
        message: Message,
    },
    /// A datagram reaches it.
    Take {
        from: Address,
        datagram: Message,
    },
    Tick,
}

/// How a call ended.
#[derive(Clone, Copy, PartialEq, Eq)]
pub(crate) enum Called {
    /// It was done, or refused for another reason than want of memory.
    Done,
    Wanting,
    /// A datagram found no memory, and counts as taken or doesn't.
    Stopped(bool),
}

fn of_refusal(refusal: CallRefusal) -> Called {
    match refusal {
        CallRefusal::Memory => Called::Wanting,
        _ => Called::Done,
    }
}

/// How a call on sessions and flows ended.
fn of_call<T: Drop>(answer: Result<T, CallRefusal>) -> Called {
    match answer {
        Ok(_) => Called::Done,
        Err(refusal) => of_refusal(refusal),
    }
}

fn opens(
    end: &mut Endpoint,
    peer: [u8; 32],
    candidates: &[Address],
    moment: u64,
    draws: &Draws,
    out: &mut Outbox,
) -> Called {
    match end.open(&Epd { print: peer }, candidates, moment, draws, out) {
        Err(OpenRefusal::Memory) => Called::Wanting,
        _ => Called::Done,
    }
}

fn seeks(
    end: &mut Endpoint,
    name: &ServiceName,
    candidates: &[Address],
    moment: u64,
    draws: &Draws,
    out: &mut Outbox,
) -> Called {
    match end.seek(name, candidates, moment, draws, out) {
        Err(SeekRefusal::Memory) => Called::Wanting,
        _ => Called::Done,
    }
}

fn unseeks(end: &mut Endpoint, near: u32, out: &mut Outbox) -> Called {
    of_call(end.unseek(near, out))
}

fn adds_row(end: &mut Endpoint, peer: [u8; 32], addresses: &[Address]) -> Called {
    match end.add_row(peer, addresses) {
        Err(RowRefusal::Memory) => Called::Wanting,
        _ => Called::Done,
    }
}

/// Gives an end a copy of a datagram. One that is too long isn't given.
fn takes(
    end: &mut Endpoint,
    from: &Address,
    datagram: &[u8],
    moment: u64,
    draws: &Draws,
    out: &mut Outbox,
) -> Called {
    let mut room = [0; LONGEST];
    if datagram.len() > LONGEST {
        return Called::Done;
    }
    let (bytes, _) = room.split_at_mut(datagram.len());
    bytes.copy_from_slice(datagram);
    match end.receive(*from, moment, bytes, draws, out) {
        Ok(()) => Called::Done,
        Err(stopped) => Called::Stopped(stopped.taken),
    }
}

fn cancels(end: &mut Endpoint, number: u64, out: &mut Outbox) -> Called {
    of_call(end.cancel(number, out))
}

fn closes(end: &mut Endpoint, near: u32, moment: u64, out: &mut Outbox) -> Called {
    of_call(end.close(near, moment, out))
}

fn opens_flow(
    end: &mut Endpoint,
    near: u32,
    priority: u8,
    metadata: &[u8],
    answers: Option<u64>,
    out: &mut Outbox,
) -> Called {
    of_call(end.open_flow(near, priority, metadata, answers, out))
}

fn queues(
    end: &mut Endpoint,
    near: u32,
    flow: u64,
    message: &[u8],
    options: MessageOptions,
    out: &mut Outbox,
) -> Called {
    of_call(end.queue(near, flow, message, options, out))
}

fn abandons(end: &mut Endpoint, near: u32, flow: u64, seq: u64, out: &mut Outbox) -> Called {
    of_call(end.abandon(near, flow, seq, out))
}

fn finishes(end: &mut Endpoint, near: u32, flow: u64, out: &mut Outbox) -> Called {
    of_call(end.finish(near, flow, out))
}

fn learns(end: &mut Endpoint, out: &mut Outbox) -> Called {
    of_call(end.learn(secret_after(end.generation()), out))
}

fn advances(end: &mut Endpoint, out: &mut Outbox) -> Called {
    of_call(end.advance(out))
}

fn ticks(end: &mut Endpoint, moment: u64, draws: &Draws, out: &mut Outbox) -> Called {
    match end.tick(moment, draws, out) {
        Ok(()) => Called::Done,
        Err(_) => Called::Wanting,
    }
}

/// Narrows an end, where it may have the limit.
fn narrows(end: &mut Endpoint, limit: u16) -> Called {
    if limit >= 96 && limit <= 1164 {
        end.narrow(limit);
    }
    Called::Done
}

/// Does a step of one end.
fn calls(
    end: &mut Endpoint,
    call: &CallLine,
    moment: u64,
    draws: &Draws,
    out: &mut Outbox,
) -> Called {
    match call {
        CallLine::Introduce => {
            end.introduce();
            Called::Done
        }
        CallLine::Narrow { limit } => narrows(end, *limit),
        CallLine::Seek { service, addresses } => {
            seeks(end, service, addresses.as_slice(), moment, draws, out)
        }
        CallLine::Unseek { near } => unseeks(end, *near, out),
        CallLine::Cancel { number } => cancels(end, *number, out),
        CallLine::Close { near } => closes(end, *near, moment, out),
        CallLine::Flow {
            near,
            priority,
            metadata,
            answers,
        } => opens_flow(end, *near, *priority, metadata.bytes(), *answers, out),
        CallLine::Abandon { near, flow, seq } => abandons(end, *near, *flow, *seq, out),
        CallLine::Finish { near, flow } => finishes(end, *near, *flow, out),
        CallLine::Learn => learns(end, out),
        CallLine::Advance => advances(end, out),
        _ => Called::Done,
    }
}

/// Does a step towards a peer.
fn aims(
    end: &mut Endpoint,
    aim: AimLine,
    peer: [u8; 32],
    addresses: &[Address],
    moment: u64,
    draws: &Draws,
    out: &mut Outbox,
) -> Called {
    match aim {
        AimLine::Redirect => adds_row(end, peer, addresses),
        AimLine::Open => opens(end, peer, addresses, moment, draws, out),
    }
}

/// Makes a call.
pub(crate) fn do_deed(
    end: &mut Endpoint,
    deed: &Deed,
    moment: u64,
    draws: &Draws,
    out: &mut Outbox,
) -> Called {
    match deed {
        Deed::Call { call } => calls(end, call, moment, draws, out),
        Deed::Aim {
            aim,
            peer,
            addresses,
        } => aims(end, *aim, *peer, addresses.as_slice(), moment, draws, out),
        Deed::Queue {
            near,
            flow,
            options,
            message,
        } => queues(end, *near, *flow, message.bytes(), *options, out),
        Deed::Take { from, datagram } => takes(end, from, datagram.bytes(), moment, draws, out),
        Deed::Tick => ticks(end, moment, draws, out),
    }
}
