//! What a session tells of how fast it sends, and what a packet has of its flows.

/// The moment, and of a session how long after its sending a number is lost, in milliseconds, and
/// how many bytes may be in flight.
#[derive(Clone, Copy, Debug, PartialEq, Eq)]
pub struct Pace {
    pub moment: u64,
    pub resend_after: u64,
    pub window: u64,
}

/// The numbers of a user data chunk.
#[derive(Clone, Copy, Debug, PartialEq, Eq)]
pub struct Before {
    pub flow: u64,
    pub seq: u64,
    pub forward: u64,
}

/// What a packet has of the flows of a session.
#[derive(Clone, Copy)]
pub struct Marks {
    /// The numbers of the chunk that it ends with, where this is one of a flow.
    pub before: Option<Before>,
    /// Of each flow by its ID whether a chunk of it is there.
    pub begun: [bool; 256],
}
