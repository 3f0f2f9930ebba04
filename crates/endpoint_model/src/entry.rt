//! What a call of an end adds to its outbox.

use crypto_profile::Context;
use glare_core::{Fact, Why};
use identity::ServiceName;
use rtmfp_base::{Cause, Message};
use rtmfp_forms::Address;

/// One thing that an end did.
#[derive(Drop)]
pub enum Entry {
    /// A fact about what is held with a peer.
    Fact(Fact),
    /// A session that was closing is over.
    Closed {
        /// Its session ID at this end.
        near: u32,
    },
    /// A search for an end with a name began.
    Sought {
        /// Its session ID at this end.
        near: u32,
        /// The name.
        name: ServiceName,
    },
    /// A search is over, and no attempt came of it.
    Unsought {
        /// Its session ID at this end.
        near: u32,
        /// Why: it was cancelled, or it expired.
        why: Why,
    },
    /// A session moved: its datagrams go to this address from now on.
    Moved {
        /// Its session ID at this end.
        near: u32,
        /// The new address.
        to: Address,
    },
    /// The secret of the next generation of the group was learnt (own).
    Learnt {
        /// Its number.
        generation: u64,
    },
    /// The next generation of the group's secret became the current one (own).
    Advanced {
        /// Its number.
        generation: u64,
    },
    /// A flow was opened in a session.
    FlowOpened {
        /// The session's ID at this end.
        near: u32,
        /// The flow's ID.
        flow: u64,
    },
    /// A message was queued in a flow.
    Queued {
        near: u32,
        flow: u64,
        /// The number of its first fragment.
        seq: u64,
        message: Message,
    },
    /// A flow was finished.
    Finished {
        near: u32,
        flow: u64,
        /// Its last number.
        seq: u64,
    },
    /// A message that waits is sent no longer.
    Abandoned {
        near: u32,
        flow: u64,
        /// The number of its first fragment.
        seq: u64,
    },
    /// A message of a flow of the other end is handed over.
    Handed {
        near: u32,
        flow: u64,
        /// The number of its first fragment.
        seq: u64,
        message: Message,
    },
    /// A datagram, or a chunk of one, was discarded.
    Discard {
        /// The place of the chunk's type byte in the plain packet; 0 for the datagram.
        place: u32,
        /// Why.
        cause: Cause,
    },
    /// A datagram to send.
    Out {
        /// Where to.
        to: Address,
        /// Its bytes.
        datagram: Message,
        /// What it is sealed for.
        context: Context,
    },
}
