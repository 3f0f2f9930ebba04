//! What a sender answers.

use thiserror::Error;

/// Why a message isn't queued.
#[derive(Clone, Copy, Debug, PartialEq, Eq, Error)]
pub enum QueueRefusal {
    /// It has more bytes than this.
    #[error("a message has at most {0} bytes")]
    TooLong(u64),
    /// The flow holds so many bytes, and has no room for the message.
    #[error("the flow holds {0} bytes and has no room")]
    Backlog(u64),
    #[error("the flow is finished")]
    Finished,
    #[error("the flow has no numbers left")]
    SequenceSpent,
    #[error("out of memory")]
    Memory,
}

/// No message that waits begins at the number.
#[derive(Clone, Copy, Debug, PartialEq, Eq, Error)]
#[error("no such message waits")]
pub struct NotQueued;

/// Why there is no chunk.
#[derive(Clone, Copy, Debug, PartialEq, Eq, Error)]
pub enum NoChunk {
    /// The flow has nothing that it may send.
    #[error("the flow has nothing to send")]
    Nothing,
    /// The fragment would pass the session's window.
    #[error("the window is full")]
    Window,
    /// The chunk is longer than the room.
    #[error("the chunk has no room")]
    Room,
}

/// Why an ack isn't taken.
#[derive(Clone, Copy, Debug, PartialEq, Eq, Error)]
pub enum AckFault {
    /// It acknowledges this number, which was never sent.
    #[error("the ack speaks of {0}, which was never sent")]
    AckBeyond(u64),
}

/// What an ack did.
#[derive(Clone, Copy, Debug, PartialEq, Eq)]
pub struct Acked {
    /// The bytes of the numbers, but the abandoned ones, that it newly acknowledged.
    pub bytes: u64,
    /// It made a number lost.
    pub lost: bool,
}
