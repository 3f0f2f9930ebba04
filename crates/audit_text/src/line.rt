//! What the lines of a log's text say.

use crypto_profile::Context;
use glare_core::{Fact, Why};
use identity::{Certificate, ServiceName};
use rtmfp_base::Message;
use rtmfp_forms::Address;
use rtmfp_text::Name;

/// The call of an event.
#[derive(Drop)]
pub enum LogCall {
    /// `open PRINT TAG`: an attempt.
    Open {
        /// The fingerprint of the end that is called.
        peer: [u8; 32],
        /// The tag that the call drew.
        tag: [u8; 16],
    },
    /// `seek HEX TAG`: a search.
    Seek {
        /// The name that is looked for.
        name: ServiceName,
        /// The tag that the call drew.
        tag: [u8; 16],
    },
    /// `cancel N`: an attempt is given up.
    Cancel {
        /// The attempt's number.
        n: u64,
    },
    /// `unseek ID`: a search is given up.
    Unseek {
        /// The search's ID.
        near: u32,
    },
    /// `close ID`: a session is closed.
    Close {
        /// The session's ID at this end.
        near: u32,
    },
    /// `learn SECRET`: the group's next secret.
    Learn {
        /// It.
        secret: [u8; 32],
    },
    /// `advance`: the next secret becomes the current one.
    Advance,
    /// `receive ADDR HEX`: a datagram that came.
    Receive {
        /// Where it came from. Its origin is 0.
        from: Address,
        /// Its bytes.
        datagram: Message,
    },
    /// `tick`: what time made due.
    Tick,
    /// `other`: a call of which logs say no more.
    Other,
}

/// What an end was made with.
#[derive(Drop)]
pub struct LogHead {
    /// The most peers that it knows.
    pub max_peers: u32,
    /// The most attempts and sessions that it has.
    pub max_sessions: u32,
    /// The number of its first secret.
    pub generation: u64,
    /// The first secret of the group.
    pub secret: [u8; 32],
    /// The secret of its cookies.
    pub cookie_secret: [u8; 32],
    /// Its certificate.
    pub cert: Certificate,
}

/// A call, and what it was given.
#[derive(Drop)]
pub struct LogEvent {
    /// The largest moment given to the end so far, in milliseconds.
    pub moment: u64,
    /// The nonce that the call drew; zeros for a call that draws nothing.
    pub nonce: [u8; 16],
    /// The call.
    pub call: LogCall,
}

/// What an end did in an event.
#[derive(Drop)]
pub enum LogEntry {
    /// `started`, `born`, `opened`, `confirmed` or `ended`.
    Fact(Fact),
    /// `closed NEAR`: a session that was closing is over.
    Closed {
        /// Its session ID at this end.
        near: u32,
    },
    /// `sought NEAR HEX`: a search was begun.
    Sought {
        /// Its ID.
        near: u32,
        /// The name that is looked for.
        name: ServiceName,
    },
    /// `unsought NEAR WHY`: a search is over.
    Unsought {
        /// Its ID.
        near: u32,
        /// Why.
        why: Why,
    },
    /// `learnt G`: the next secret is known.
    Learnt {
        /// Its number.
        generation: u64,
    },
    /// `advanced G`: another secret is the current one.
    Advanced {
        /// Its number.
        generation: u64,
    },
    /// `out ADDR CONTEXT HEX`: a datagram that went out.
    Out {
        /// Where to. Its origin is 0.
        to: Address,
        /// Its bytes.
        datagram: Message,
        /// What it was sealed for.
        context: Context,
    },
}

/// What a line of a log's text says.
#[derive(Drop)]
pub enum LogLine {
    /// Nothing: it begins with `#`.
    Skip,
    /// `log NAME P S G SECRET COOKIESECRET CERT`: an end.
    Log {
        /// What the text calls the end.
        name: Name,
        /// What it was made with.
        head: LogHead,
    },
    /// `event NAME MOMENT NONCE CALL`: a call of an end.
    Event {
        /// What the text calls the end.
        name: Name,
        /// The call.
        event: LogEvent,
    },
    /// `+ ENTRY`: what the end did in the event above.
    Entry(LogEntry),
}
