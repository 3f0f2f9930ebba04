//! What an audit answers.

/// Why logs are refused (own).
#[derive(Clone, Copy, Debug, PartialEq, Eq)]
pub enum AuditFault {
    /// An end was given another secret for a number than the first one that was told for it.
    Secrets,
    /// An entry doesn't meet its line of the table of lawful logs.
    Unlawful,
    /// A datagram that opened wasn't sent before, in the context in which it opened.
    NotHonest,
    /// A nonce was stated before, or an end has the fingerprint of an earlier one.
    NotFresh,
}

/// The check that fails (own).
#[derive(Clone, Copy, Debug, PartialEq, Eq)]
pub struct Finding {
    /// The event, counted from 1 in the order of the audit; 0 for what an end was given first.
    pub event: u64,
    /// The entry of the event, counted from 1; 0 for the event as a whole. Where the event is 0, it
    /// is the end, counted from 1.
    pub entry: u64,
    /// What is wrong there.
    pub fault: AuditFault,
}

/// What an audit answers (own).
#[derive(Clone, Copy, Debug, PartialEq, Eq)]
pub enum Verdict {
    /// The history is lawful, honest and fresh, with one map of secrets.
    Yes {
        /// How many events there are.
        events: u64,
        /// How many pairs of an end and a peer there are of which the end keeps a session with the
        /// peer at the end.
        kept: u64,
    },
    /// It isn't: this is the first check that fails.
    No(Finding),
}
