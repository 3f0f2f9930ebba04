//! How searches begin and are over.

ghost use Rattle.std.specs.Prelude.{◌≡◌, ◌&&◌, ℕ, List, true};
ghost use Rattle.std.specs.FinMap.{get};
ghost use Rattle.endpoint_laws.specs.Past.{Past};
ghost use Rattle.endpoint_laws.specs.Lawful.{SoughtLine, UnsoughtLine};
ghost use Rattle.log_digest.specs.Digest.{IsDigestOf};
ghost use Rattle.log_values.specs.Events.{call_of};
ghost use Rattle.log_lines.specs.Decisions.{is_search_over, is_unused, search_ends, seeks};

use crate::calls::{is_tick, seeks, unseeks};
use crate::facts::is_unused;
use crate::moments::{LIFETIME, is_over};
use glare_core::Why;
use identity::ServiceName;
use log_digest::{Digest, Spot};
use log_values::LoggedCall;

/// Whether a search begins: by a seek of its name, under a session ID that is free (own).
pub fn sought(digest: &Digest, call: &LoggedCall, near: u32, name: &ServiceName) -> bool
    ensures yes { (nonce : List ℕ) (last : ℕ) (past : Past) → IsDigestOf last past digest.now →
        result ≡ true → SoughtLine (call_of nonce call.now) past near name.now }
    ensures no { (nonce : List ℕ) (last : ℕ) (past : Past) → IsDigestOf last past digest.now →
        SoughtLine (call_of nonce call.now) past near name.now → result ≡ true }
{
    is_sought(digest, call, near, name)
}

/// Whether the call seeks it under a free session ID.
fn is_sought(digest: &Digest, call: &LoggedCall, near: u32, name: &ServiceName) -> bool
    ensures { result ≡ (seeks call.now name.now && is_unused near digest.now) }
{
    seeks(call, name) && is_unused(digest, near)
}

/// Whether the search under this session ID is over by this cause: one stands there, and its unseek
/// came, or a tick 95,000 ms after it began (own).
pub fn unsought(digest: &Digest, call: &LoggedCall, near: u32, why: Why) -> bool
    ensures yes { (nonce : List ℕ) (now : ℕ) (past : Past) → IsDigestOf now past digest.now →
        result ≡ true → UnsoughtLine now (call_of nonce call.now) past near why }
    ensures no { (nonce : List ℕ) (now : ℕ) (past : Past) → IsDigestOf now past digest.now →
        UnsoughtLine now (call_of nonce call.now) past near why → result ≡ true }
{
    is_search_over(digest, call, near, why)
}

/// Whether a search stands under a session ID and ends so.
fn is_search_over(digest: &Digest, call: &LoggedCall, near: u32, why: Why) -> bool
    ensures { result ≡
        is_search_over call.now near digest.now.moment why (get digest.now.spots near) }
{
    match digest.spot(near) {
        Some(Spot::Searching { at, .. }) => search_ends(call, near, at, digest.moment(), why),
        _ => false,
    }
}

/// Whether a search that began at this moment ends so.
fn search_ends(call: &LoggedCall, near: u32, at: u64, now: u64, why: Why) -> bool
    ensures { result ≡ search_ends call.now near at now why }
{
    match why {
        Why::Cancelled => unseeks(call, near),
        Why::Expired => is_tick(call) && is_over(LIFETIME, Some(at), now),
        _ => false,
    }
}
