//! The numbers of what calls answer (rtmfp.h).

ghost use Rattle.std.specs.Prelude.{◌≡◌};
ghost use Rattle.c_shapes.specs.Numbers.{call_number, given_by, near_given_by, near_in};
ghost use Rattle.c_shapes.specs.Numbers.{number_of, open_number, queue_number, row_number};
ghost use Rattle.c_shapes.specs.Numbers.{seek_number, start_number, told_number, took_number};
ghost use Rattle.c_shapes.specs.Numbers.{value_in};

use endpoint::{
    Answered, CallRefusal, OpenRefusal, QueueRefusal, RowRefusal, SeekRefusal, Stopped,
};
use glare_core::StartRefusal;

/// It was done.
pub const OK: i32 = 0;

/// No memory was found.
pub const MEMORY: i32 = -1;

/// The handle holds no end.
pub const EMPTY: i32 = -2;

/// The handle holds an end already.
pub const FULL: i32 = -3;

/// A limit is out of its range.
pub const CONFIG: i32 = -4;

/// The bytes are no certificate.
pub const CERTIFICATE: i32 = -5;

/// The datagram has more than 2,048 bytes.
pub const TOO_LONG: i32 = -6;

/// There is no such entry.
pub const INDEX: i32 = -7;

/// The datagram was taken, and no memory was found for the rest of what it does.
const PARTLY: i32 = -8;

/// An address has another family or another origin than there are.
pub const ADDRESS: i32 = -9;

/// The room has another length than the bytes.
pub const SIZE: i32 = -18;

/// The bytes are no service name.
pub const NAME: i32 = -19;

/// Why no attempt can start.
fn start_number(refusal: StartRefusal) -> i32
    ensures { result ≡ start_number refusal }
{
    match refusal {
        StartRefusal::Opening(_) => -11,
        StartRefusal::Open(_) => -12,
        StartRefusal::PeersFull(_) => -13,
        StartRefusal::AttemptsSpent => -14,
        StartRefusal::OwnPrint => -15,
        StartRefusal::Memory => MEMORY,
    }
}

/// Why no attempt is opened.
fn open_number(refusal: OpenRefusal) -> i32
    ensures { result ≡ open_number refusal }
{
    match refusal {
        OpenRefusal::Candidates(_) => -10,
        OpenRefusal::Start(start) => start_number(start),
        OpenRefusal::SessionsFull(_) => -16,
        OpenRefusal::Memory => MEMORY,
    }
}

/// Why no search begins.
fn seek_number(refusal: SeekRefusal) -> i32
    ensures { result ≡ seek_number refusal }
{
    match refusal {
        SeekRefusal::Candidates(_) => -10,
        SeekRefusal::SessionsFull(_) => -16,
        SeekRefusal::Memory => MEMORY,
    }
}

/// Why no row is added.
fn row_number(refusal: RowRefusal) -> i32
    ensures { result ≡ row_number refusal }
{
    match refusal {
        RowRefusal::Candidates(_) => -10,
        RowRefusal::RowsFull(_) => -17,
        RowRefusal::Memory => MEMORY,
    }
}

/// Why a message isn't queued.
fn queue_number(refusal: QueueRefusal) -> i32
    ensures { result ≡ queue_number refusal }
{
    match refusal {
        QueueRefusal::TooLong(_) => -27,
        QueueRefusal::Backlog(_) => -28,
        QueueRefusal::Finished => -26,
        QueueRefusal::SequenceSpent => -29,
        QueueRefusal::Memory => MEMORY,
    }
}

/// Why another call is refused.
fn call_number(refusal: CallRefusal) -> i32
    ensures { result ≡ call_number refusal }
{
    match refusal {
        CallRefusal::NoAttempt => -20,
        CallRefusal::NoSession => -21,
        CallRefusal::NoFlow => -22,
        CallRefusal::FlowsFull(_) => -23,
        CallRefusal::WideMetadata(_) => -24,
        CallRefusal::NotQueued => -25,
        CallRefusal::Finished => -26,
        CallRefusal::NextKnown(_) => -30,
        CallRefusal::GenerationsSpent => -31,
        CallRefusal::SameSecret => -32,
        CallRefusal::NoNext => -33,
        CallRefusal::Queue(queue) => queue_number(queue),
        CallRefusal::Memory => MEMORY,
    }
}

/// The number of what an end answered to a call.
pub fn number_of(answered: Answered) -> i32
    ensures { result ≡ number_of answered }
{
    match answered {
        Answered::Began(_) => OK,
        Answered::Searching(_) => OK,
        Answered::FlowOpened(_) => OK,
        Answered::Queued(_) => OK,
        Answered::Succeeds(_) => OK,
        Answered::Done => OK,
        Answered::NotOpened(refusal) => open_number(refusal),
        Answered::NotSought(refusal) => seek_number(refusal),
        Answered::Refused(refusal) => call_number(refusal),
        Answered::NotAdded(refusal) => row_number(refusal),
        Answered::OutOfMemory => MEMORY,
    }
}

/// The same where there is an end, and else that there is none.
pub fn told_number(answered: Option<Answered>) -> i32
    ensures { result ≡ told_number answered }
{
    match answered {
        Some(answered) => number_of(answered),
        None => EMPTY,
    }
}

/// The number of what a datagram came to.
pub fn took_number(answered: Option<Result<(), Stopped>>) -> i32
    ensures { result ≡ took_number answered }
{
    match answered {
        Some(Ok(())) => OK,
        Some(Err(stopped)) => { if stopped.taken { PARTLY } else { MEMORY } }
        None => EMPTY,
    }
}

/// The number that an answer gives: of an attempt, a flow, a message or a generation.
fn value_in(answered: Answered) -> Option<u64>
    ensures { result ≡ value_in answered }
{
    match answered {
        Answered::Began(n) => Some(n),
        Answered::Searching(_) => None,
        Answered::FlowOpened(flow) => Some(flow),
        Answered::Queued(seq) => Some(seq),
        Answered::Succeeds(generation) => Some(generation),
        Answered::Done => None,
        Answered::NotOpened(_) => None,
        Answered::NotSought(_) => None,
        Answered::Refused(_) => None,
        Answered::NotAdded(_) => None,
        Answered::OutOfMemory => None,
    }
}

/// Writes the number that an answer gives, if it gives one.
pub fn give(answered: Option<Answered>, number: &mut u64)
    ensures { number.new ≡ given_by answered number.old }
{
    match answered {
        Some(answered) => match value_in(answered) {
            Some(given) => *number = given,
            None => {}
        },
        None => {}
    }
}

/// The session ID that an answer gives: of a search.
fn near_in(answered: Answered) -> Option<u32>
    ensures { result ≡ near_in answered }
{
    match answered {
        Answered::Began(_) => None,
        Answered::Searching(near) => Some(near),
        Answered::FlowOpened(_) => None,
        Answered::Queued(_) => None,
        Answered::Succeeds(_) => None,
        Answered::Done => None,
        Answered::NotOpened(_) => None,
        Answered::NotSought(_) => None,
        Answered::Refused(_) => None,
        Answered::NotAdded(_) => None,
        Answered::OutOfMemory => None,
    }
}

/// Writes the session ID that an answer gives, if it gives one.
pub fn give_near(answered: Option<Answered>, near: &mut u32)
    ensures { near.new ≡ near_given_by answered near.old }
{
    match answered {
        Some(answered) => match near_in(answered) {
            Some(given) => *near = given,
            None => {}
        },
        None => {}
    }
}
