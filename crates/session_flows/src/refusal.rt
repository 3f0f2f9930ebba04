//! Why a call of an end is refused.

use flow_send::QueueRefusal;
use thiserror::Error;

/// Why a call is refused: one on a session's flows, or another of an end that has no refusal of its
/// own. Where several causes stand, the answer is the first of them in this order. All is as before.
/// The flows of a session answer none of those about attempts, sessions and generations.
#[derive(Clone, Copy, Debug, PartialEq, Eq, Error)]
pub enum CallRefusal {
    /// No held attempt has this number.
    #[error("no attempt has this number")]
    NoAttempt,
    /// No held session has this session ID.
    #[error("no session has this session ID")]
    NoSession,
    /// The session opened no such flow.
    #[error("the session opened no such flow")]
    NoFlow,
    /// There are this many flows that were opened here, as many as may be.
    #[error("there are {0} flows")]
    FlowsFull(u64),
    /// The metadata, which has so many bytes, has more than 64, or the priority is above 7.
    #[error("metadata of {0} bytes, or the priority, passes its limit")]
    WideMetadata(u64),
    /// From an end it is never `QueueRefusal::Memory`.
    #[error("not queued: {0}")]
    Queue(QueueRefusal),
    /// No message that waits begins at the number.
    #[error("no such message waits")]
    NotQueued,
    /// The flow was finished before.
    #[error("the flow is finished")]
    Finished,
    /// The next generation of the group's secret is known already; its number (own).
    #[error("the next generation is known already: {0}")]
    NextKnown(u64),
    /// The current generation has the last number, 2^64 - 1, so that none follows it (own).
    #[error("no generation follows the last number")]
    GenerationsSpent,
    /// The secret is the current one (own).
    #[error("the secret is the current one")]
    SameSecret,
    /// The next generation isn't known (own).
    #[error("the next generation isn't known")]
    NoNext,
    #[error("out of memory")]
    Memory,
}
