//! Who sends, and in which event.

use log_arrivals::Arrival;
use log_contexts::Contexts;
use log_digest::{Digest, Nonces, Numbers};
use log_values::LoggedCall;

/// An end that sends, and what is kept of it (own).
#[derive(Clone, Copy)]
pub struct Sender<'a> {
    /// Its certificate.
    pub cert: &'a [u8],
    /// The fingerprint of that.
    pub own: &'a [u8; 32],
    /// What it holds.
    pub digest: &'a Digest,
    /// The generations and tags of its session IDs.
    pub contexts: &'a Contexts,
    /// The numbers that it used.
    pub numbers: &'a Numbers,
    /// The nonces that it stated.
    pub nonces: &'a Nonces,
}

/// The event in which it sends (own).
#[derive(Clone, Copy)]
pub struct Cause<'a> {
    /// The call.
    pub call: &'a LoggedCall,
    /// Where the datagram opens that the call gives.
    pub arrival: Arrival,
    /// The plain packet that it opens to. Where it opens nowhere nothing is asked of this.
    pub plain: &'a [u8],
}
