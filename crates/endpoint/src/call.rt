//! The calls of an end as values, and what they answer.

use endpoint_model::{CallRefusal, OpenRefusal, SeekRefusal};
use flow_send::MessageOptions;
use identity::ServiceName;
use introducer::RowRefusal;
use rtmfp_forms::Address;

/// A call of an end, with what it is given but for its moment and its draws. A datagram is brought
/// by a call of its own, since it is opened in place.
#[derive(Clone, Copy)]
pub enum EndCall<'a> {
    /// An attempt is opened towards the end with this fingerprint.
    Open {
        print: &'a [u8; 32],
        /// The places where the end may be.
        candidates: &'a [Address],
    },
    /// A search begins for an end whose certificate has this name.
    Seek {
        name: &'a ServiceName,
        /// The places where such an end may be.
        candidates: &'a [Address],
    },
    /// The search with this session ID is given up.
    Unseek {
        near: u32,
    },
    /// The attempt with this number is given up.
    Cancel {
        n: u64,
    },
    /// The session with this session ID is closed.
    Close {
        near: u32,
    },
    /// A flow is opened in a session.
    OpenFlow {
        near: u32,
        priority: u8,
        metadata: &'a [u8],
        /// The flow of the other end that it answers.
        answers: Option<u64>,
    },
    /// A message is queued in a flow.
    Queue {
        near: u32,
        flow: u64,
        message: &'a [u8],
        options: MessageOptions,
    },
    /// A message of a flow is abandoned.
    Abandon {
        near: u32,
        flow: u64,
        /// The number of its first fragment.
        seq: u64,
    },
    /// A flow is finished.
    Finish {
        near: u32,
        flow: u64,
    },
    /// Hellos for the end with this fingerprint are answered with these addresses.
    AddRow {
        print: &'a [u8; 32],
        addresses: &'a [Address],
    },
    /// The end introduces others to each other from now on.
    Introduce,
    /// Packets of sessions that have more than so many plain bytes go out in pieces from now on.
    Narrow(u16),
    /// The secret of the group's next generation is learnt.
    Learn {
        secret: &'a [u8; 32],
    },
    /// The next generation becomes the current one.
    Advance,
    /// All is done that is due.
    Tick,
}

/// What a call answered.
#[derive(Clone, Copy, Debug, PartialEq, Eq)]
pub enum Answered {
    /// An attempt began, with this number.
    Began(u64),
    /// A search began, with this session ID.
    Searching(u32),
    /// A flow was opened, with this ID.
    FlowOpened(u64),
    /// A message was queued; the number of its first fragment.
    Queued(u64),
    /// A generation of the group's secret was learnt, or became the current one; its number.
    Succeeds(u64),
    /// A call was done that gives no number.
    Done,
    NotOpened(OpenRefusal),
    NotSought(SeekRefusal),
    Refused(CallRefusal),
    NotAdded(RowRefusal),
    /// A tick found no memory for all that is due.
    OutOfMemory,
}
