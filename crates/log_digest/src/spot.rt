//! What stands under a session ID.

use glare_core::Held;
use identity::ServiceName;

/// What stands under a session ID (own).
#[derive(Clone, Copy)]
pub enum Spot {
    /// A search.
    Searching {
        /// The name that is sought.
        name: ServiceName,
        /// The tag that the seek drew, and its nonce.
        tag: [u8; 16],
        ni: [u8; 16],
        /// When it began, in milliseconds.
        at: u64,
    },
    /// What is held with a peer.
    Holding {
        /// The peer's fingerprint.
        peer: [u8; 32],
        /// When it began, in milliseconds: the moment of the Started, Born or Opened.
        at: u64,
    },
    /// A session that is closing.
    Closing {
        /// What it was while it was held.
        thing: Held,
        /// When it was closed, in milliseconds.
        at: u64,
    },
}

/// What a seek draws for its search.
#[derive(Clone, Copy)]
pub struct Drawn {
    /// The tag of its hellos.
    pub tag: [u8; 16],
    /// The nonce of the attempt that may come of it.
    pub ni: [u8; 16],
}

/// What an entry changes under session IDs.
#[derive(Clone, Copy)]
pub(crate) enum Change {
    /// Nothing.
    Stays,
    /// This stands under this one from now on.
    Puts(u32, Spot),
    /// Nothing stands under this one any more.
    Takes(u32),
}
