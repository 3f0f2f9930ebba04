//! A receiving flow of a session.

use flow_recv::FlowReceiver;

/// A flow that chunks of the other end made.
#[derive(Drop)]
pub struct TakingFlow {
    /// The ID that the other end gave it.
    pub id: u64,
    pub receiver: FlowReceiver,
    /// Whether the call that goes on has taken a chunk of it, or a buffer probe, and hasn't told
    /// its ack yet.
    pub owed: bool,
}
