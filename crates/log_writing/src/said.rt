//! Calls as they are written.

use identity::ServiceName;
use rtmfp_forms::Address;

/// What is written of a call. It owns nothing, so that no datagram is copied.
#[derive(Clone, Copy)]
pub enum SaidCall<'a> {
    /// An attempt.
    Open {
        /// The fingerprint of the end that is called.
        peer: &'a [u8; 32],
        /// The tag that the call drew.
        tag: &'a [u8; 16],
    },
    /// A search.
    Seek {
        /// The name that is looked for.
        name: &'a ServiceName,
        /// The tag that the call drew.
        tag: &'a [u8; 16],
    },
    /// An attempt is given up.
    Cancel {
        /// Its number.
        n: u64,
    },
    /// A search is given up.
    Unseek {
        /// Its session ID.
        near: u32,
    },
    /// A session is closed.
    Close {
        /// Its session ID at this end.
        near: u32,
    },
    /// The group's next secret is learnt.
    Learn {
        /// It.
        secret: &'a [u8; 32],
    },
    /// The next secret becomes the current one.
    Advance,
    /// A datagram came.
    Receive {
        /// Where it came from. Its origin isn't written.
        from: &'a Address,
        /// Its bytes.
        datagram: &'a [u8],
    },
    /// What was due is done.
    Tick,
    /// A call of which logs say no more.
    Other,
}
