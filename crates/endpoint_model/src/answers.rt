//! What the calls of an end answer.

use glare_core::StartRefusal;
use thiserror::Error;

/// Why an attempt isn't opened. Where several causes stand, the answer is the first of them in this
/// order.
#[derive(Clone, Copy, Debug, PartialEq, Eq, Error)]
pub enum OpenRefusal {
    /// There are none or more than 16 candidates; how many.
    #[error("{0} candidates, where 1 to 16 are wanted")]
    Candidates(u64),
    /// What is held and counted doesn't let it start. It is never `StartRefusal::Memory`.
    #[error("the attempt can't start: {0:?}")]
    Start(StartRefusal),
    /// There are as many attempts, searches and sessions as may be; how many.
    #[error("there are {0} attempts, searches and sessions already")]
    SessionsFull(u64),
    #[error("out of memory")]
    Memory,
}

/// Why a search doesn't begin. Where several causes stand, the answer is the first of them in this
/// order.
#[derive(Clone, Copy, Debug, PartialEq, Eq, Error)]
pub enum SeekRefusal {
    /// There are none or more than 16 candidates; how many.
    #[error("{0} candidates, where 1 to 16 are wanted")]
    Candidates(u64),
    /// There are as many attempts, searches and sessions as may be; how many.
    #[error("there are {0} attempts, searches and sessions already")]
    SessionsFull(u64),
    #[error("out of memory")]
    Memory,
}

/// How far a datagram was gone through that found no memory.
#[derive(Clone, Copy, Debug, PartialEq, Eq)]
pub struct Stopped {
    /// Whether the datagram was taken. Where it wasn't, all is as before.
    pub taken: bool,
    /// How many of its chunks were gone through.
    pub chunks: u32,
}
