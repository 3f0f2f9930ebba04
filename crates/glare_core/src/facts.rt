//! The facts that an end states of what it holds with its peers (own rules).

/// Why a thing that was held ended.
#[derive(Clone, Copy, Debug, PartialEq, Eq)]
pub enum Why {
    /// An attempt was given up by its own end.
    Cancelled,
    /// An attempt wasn't answered in time.
    Expired,
    /// An attempt made way for a session of the peer's attempt, since the peer prevails.
    Glare,
    /// A session made way for a session of a newer attempt of the peer.
    Override,
    /// A half-open session wasn't confirmed in time.
    Unconfirmed,
    /// A session was closed by this end.
    Near,
    /// A session was closed by the peer.
    Far,
    /// Nothing came in a kept session for too long.
    Idle,
}

/// The values of a session, as one of its ends has them.
#[derive(Clone, Copy, Debug, PartialEq, Eq)]
pub struct Joined {
    /// The fingerprint of the other end.
    pub peer: [u8; 32],
    /// The number of the initiator's attempt.
    pub n: u64,
    /// The session ID under which this end receives.
    pub near: u32,
    /// The session ID under which the peer receives.
    pub far: u32,
    /// The initiator's nonce.
    pub ni: [u8; 16],
    /// The responder's nonce.
    pub nr: [u8; 16],
    /// How many attempts the responder had started before the session was born.
    pub k: u64,
}

/// What happened to the thing that an end holds with a peer.
#[derive(Clone, Copy, Debug, PartialEq, Eq)]
pub enum Fact {
    /// An attempt towards the peer was started.
    Started {
        peer: [u8; 32],
        n: u64,
        near: u32,
        ni: [u8; 16],
    },
    /// A session was born of the peer's attempt. It is half-open.
    Born(Joined),
    /// The held attempt was answered. Its session is kept from now on.
    Opened(Joined),
    /// The half-open session with this near id is kept from now on.
    Confirmed {
        peer: [u8; 32],
        near: u32,
    },
    /// The thing with this near id isn't held any more.
    Ended {
        peer: [u8; 32],
        near: u32,
        why: Why,
    },
}

/// The thing that an end holds with a peer.
#[derive(Clone, Copy, Debug, PartialEq, Eq)]
pub enum Held {
    /// An attempt that wasn't answered yet.
    Opening { n: u64, near: u32, ni: [u8; 16] },
    /// A session that was born here and isn't confirmed.
    HalfOpen(Joined),
    /// A session that was born here and was confirmed.
    KeptAsResponder(Joined),
    /// A session that was opened here.
    KeptAsInitiator(Joined),
}
