//! Who bears sessions, and what made way for one.

use cookies::CookieMaker;
use glare_core::Held;

/// An end of which sessions are born, and what it was given (own).
#[derive(Clone, Copy)]
pub struct Party<'a> {
    /// Its certificate.
    pub cert: &'a [u8],
    /// The fingerprint of that.
    pub own: &'a [u8; 32],
    /// The maker of its cookies.
    pub cookies: &'a CookieMaker,
    /// The most peers that are ever known.
    pub max_peers: u32,
    /// The most attempts, searches and sessions at a time.
    pub max_sessions: u32,
}

/// What was before the entry directly before a birth, where that is an end that makes way for one
/// (own).
#[derive(Clone, Copy)]
pub struct Way {
    /// The peer with which something ended.
    pub peer: [u8; 32],
    /// What was held with it.
    pub thing: Held,
    /// How many session IDs were in use.
    pub uses: usize,
}
