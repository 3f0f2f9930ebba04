//! Where a datagram belongs.

/// What a datagram's session ID names at this end.
#[derive(Clone, Copy, Debug, PartialEq, Eq)]
pub enum Place {
    /// Session ID 0: the startup session.
    Startup {
        /// The generation of the group secret under which datagrams open here (own).
        generation: u64,
    },
    /// The session ID of an attempt.
    Attempt {
        /// The session ID.
        near: u32,
        /// The generation of the group secret under which datagrams open here (own).
        generation: u64,
    },
    /// The session ID of a session, which has its own generation.
    Session(u32),
}
