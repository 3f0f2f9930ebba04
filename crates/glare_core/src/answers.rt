//! What the calls on an end's peers take and answer.

use crate::facts::{Fact, Held, Joined};

/// Why no attempt starts. Where several stand, the answer is the first of `OwnPrint`, `Opening`,
/// `Open`, `AttemptsSpent`, `PeersFull`, `Memory`.
#[derive(Clone, Copy, Debug, PartialEq, Eq)]
pub enum StartRefusal {
    /// An attempt towards the peer is held; its number.
    Opening(u64),
    /// A session with the peer is held; its near id.
    Open(u32),
    /// The peer has no row, and there are as many rows as may be; how many.
    PeersFull(u64),
    /// 2^64-1 attempts were started.
    AttemptsSpent,
    /// The peer is this end.
    OwnPrint,
    /// There is no memory for the peer's row.
    Memory,
}

/// What the keying of an initiator says of its attempt.
#[derive(Clone, Copy, Debug, PartialEq, Eq)]
pub struct Keying {
    /// The fingerprint of the initiator.
    pub peer: [u8; 32],
    /// The number of its attempt.
    pub n: u64,
    /// The nonce of its attempt.
    pub ni: [u8; 16],
    /// Its session ID for the session.
    pub far: u32,
}

/// What is known of the peer of a session that would be born.
#[derive(Clone, Copy, Debug, PartialEq, Eq)]
pub struct Way {
    /// Whether the peer has a row.
    pub known: bool,
    /// What is held with the peer, and makes way for the session.
    pub held: Option<Held>,
}

/// What hearing a keying would be that isn't refused.
#[derive(Clone, Copy, Debug, PartialEq, Eq)]
pub enum Judged {
    /// The held session was born of this very keying.
    Again(Joined),
    /// A session is born.
    Birth(Way),
}

/// What became of a keying.
#[derive(Clone, Copy, Debug, PartialEq, Eq)]
pub enum Heard {
    /// The held session was born of this very keying; its near id.
    Again(u32),
    /// A session was born.
    Birth {
        /// The fact that ended what was held with the peer.
        ended: Option<Fact>,
        /// The fact of the session.
        born: Fact,
    },
}

/// Why no session is born of a keying. Where several stand, the answer is the first of `Stale`,
/// `Glare`, `PeersFull`, `SessionsFull`, `Memory`.
#[derive(Clone, Copy, Debug, PartialEq, Eq)]
pub enum HearRefusal {
    /// Its number isn't above the greatest one seen of the peer, which is given.
    Stale(u64),
    /// An attempt with this number is held towards the peer, and this end prevails.
    Glare(u64),
    /// The peer has no row, and there are as many rows as may be; how many.
    PeersFull(u64),
    /// There is no memory for the peer's row.
    Memory,
    /// Nothing is held with the peer, and there is no room for a session.
    SessionsFull,
}
