//! What a receiver answers to a chunk.

use thiserror::Error;

/// What a chunk was to the receiver that took it.
#[derive(Clone, Copy, Debug, PartialEq, Eq)]
pub enum Took {
    /// Its number was missing, and is held now.
    New,
    /// Its number was held or given up before.
    Again,
    /// It has no fragment. Its number and its forward number are given up.
    ForwardOnly,
}

/// Why a receiver takes no chunk.
#[derive(Clone, Copy, Debug, PartialEq, Eq, Error)]
pub enum FlowRefusal {
    /// The buffer has no room for the chunk. So many bytes are held, as if its forward number were
    /// taken.
    #[error("the receive buffer holds {0} bytes and has no room")]
    BeyondBuffer(u64),
    /// The chunk doesn't agree with the last number of the flow, or with the highest number taken.
    #[error("the flow ends at {0}")]
    AfterFinal(u64),
    #[error("out of memory")]
    Memory,
}
