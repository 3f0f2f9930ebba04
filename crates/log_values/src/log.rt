//! What is written down of an end.

use endpoint_model::Entry;
use identity::{Certificate, ServiceName};
use rtmfp_base::Message;
use rtmfp_forms::Address;

/// A call of an end, with what the table of lawful logs asks of it.
#[derive(Drop)]
pub enum LoggedCall {
    /// An attempt towards the end with this fingerprint; with the tag that the call drew.
    Open { peer: [u8; 32], tag: [u8; 16] },
    /// A search for an end with this name; with the tag that the call drew.
    Seek { name: ServiceName, tag: [u8; 16] },
    /// The attempt with this number is given up.
    Cancel { n: u64 },
    /// The search under this session ID is given up.
    Unseek { near: u32 },
    /// The session under this session ID is closed.
    Close { near: u32 },
    /// The secret of the group's next generation is learnt.
    Learn { secret: [u8; 32] },
    /// The next generation of that secret becomes the current one.
    Advance,
    /// A datagram came from this address.
    Receive { from: Address, datagram: Message },
    /// Time goes on.
    Tick,
    /// Any other call.
    Other,
}

/// An event of an end.
#[derive(Drop)]
pub struct Logged {
    /// The moment that the call was given, in milliseconds. That of a call that is given none isn't
    /// read.
    pub moment: u64,
    /// The nonce that the call drew.
    pub nonce: [u8; 16],
    pub call: LoggedCall,
    /// What it added.
    pub entries: Vec<Entry>,
}

/// The log of an end, and what the end was given at its beginning.
#[derive(Drop)]
pub struct EndLog {
    /// The most peers that are ever known.
    pub max_peers: u32,
    /// The most attempts, searches and sessions at a time.
    pub max_sessions: u32,
    /// The number of its group's first generation.
    pub generation: u64,
    /// The secret of its group in that.
    pub secret: [u8; 32],
    /// The secret of its cookies.
    pub cookie_secret: [u8; 32],
    /// Its certificate.
    pub cert: Certificate,
    /// Its events, the oldest first.
    pub events: Vec<Logged>,
}
