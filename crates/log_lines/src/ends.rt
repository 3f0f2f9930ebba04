//! How attempts and sessions end, and closings are over.

ghost use Rattle.std.specs.Prelude.{◌≡◌, ◌&&◌, ℕ, List, true, false};
ghost use Rattle.endpoint_model.specs.Event.{Setup};
ghost use Rattle.endpoint_laws.specs.Past.{Past, facts_of};
ghost use Rattle.endpoint_laws.specs.Contexts.{Secrets};
ghost use Rattle.endpoint_laws.specs.Lawful.{BornFollows, CancelledLine, ClosesSession, EndedLine, IsIdle, IsOverdue, IsTick, IsUnconfirmed};
ghost use Rattle.log_digest.specs.Digest.{IsDigestOf};
ghost use Rattle.log_values.specs.Events.{call_of};
ghost use Rattle.log_lines.specs.Decisions.{closes, held_with, is_birth_next, is_cancelled, is_closed, is_ended, is_idle, is_old_session, is_overdue, is_tick, is_unconfirmed};
ghost use Rattle.log_lines.specs.Lines.{hangs_on_datagrams, IsClosedByTime, IsLastWith};

use crate::calls::{cancels, closes, is_tick};
use crate::moments::{LIFETIME, closing_since, is_old, is_over, is_quiet};
use crate::things::{is_session, near_of};
use endpoint_model::Entry;
use glare_core::{Fact, Held, Why};
use log_digest::Digest;
use log_values::LoggedCall;

/// How long a half-open session waits for its confirmation, in milliseconds (own).
const CONFIRMING: u64 = 20_000;
/// How long a session stays in which nothing comes (own).
const IDLE: u64 = 120_000;
/// How long a closing lasts at least that nobody answers.
const CLOSING: u64 = 19_000;

/// Whether the call gives up the attempt that is held with this peer.
pub fn cancelled(digest: &Digest, call: &LoggedCall, peer: &[u8; 32]) -> bool
    ensures yes { (nonce : List ℕ) (now : ℕ) (past : Past) → IsDigestOf now past digest.now →
        result ≡ true → CancelledLine (call_of nonce call.now) (facts_of past) peer.now }
    ensures no { (nonce : List ℕ) (now : ℕ) (past : Past) → IsDigestOf now past digest.now →
        CancelledLine (call_of nonce call.now) (facts_of past) peer.now → result ≡ true }
{
    is_cancelled(call, digest.held(peer))
}

/// Whether the call gives up what is held.
fn is_cancelled(call: &LoggedCall, before: Option<Held>) -> bool
    ensures { result ≡ is_cancelled call.now before }
{
    match before {
        Some(Held::Opening { n, .. }) => cancels(call, n),
        _ => false,
    }
}

/// Whether the attempt that is held with this peer under this session ID expires: at a tick, 95,000
/// ms after it started (own).
pub fn expired(digest: &Digest, call: &LoggedCall, peer: &[u8; 32], near: u32) -> bool
    ensures yes { (nonce : List ℕ) (now : ℕ) (past : Past) → IsDigestOf now past digest.now →
        result ≡ true → IsTick (call_of nonce call.now) × IsOverdue now past peer.now near }
    ensures no { (nonce : List ℕ) (now : ℕ) (past : Past) → IsDigestOf now past digest.now →
        IsTick (call_of nonce call.now) × IsOverdue now past peer.now near → result ≡ true }
{
    is_expired(digest, call, peer, near)
}

/// Whether an attempt is held under this session ID that is old.
fn is_overdue(digest: &Digest, near: u32, before: Option<Held>) -> bool
    ensures { result ≡ is_overdue digest.now near before }
{
    match before {
        Some(Held::Opening { near: id, .. }) => id == near && is_old(LIFETIME, id, digest),
        _ => false,
    }
}

/// The same of what is held with this peer, at a tick.
fn is_expired(digest: &Digest, call: &LoggedCall, peer: &[u8; 32], near: u32) -> bool
    ensures { result ≡ (is_tick call.now &&
        is_overdue digest.now near (held_with digest.now.roll peer.now)) }
{
    is_tick(call) && is_overdue(digest, near, digest.held(peer))
}

/// Whether the half-open session that is held with this peer ends since nobody confirmed it: at a
/// tick, 20,000 ms after its birth (own).
pub fn unconfirmed(digest: &Digest, call: &LoggedCall, peer: &[u8; 32]) -> bool
    ensures yes { (nonce : List ℕ) (now : ℕ) (past : Past) → IsDigestOf now past digest.now →
        result ≡ true → IsTick (call_of nonce call.now) × IsUnconfirmed now past peer.now }
    ensures no { (nonce : List ℕ) (now : ℕ) (past : Past) → IsDigestOf now past digest.now →
        IsTick (call_of nonce call.now) × IsUnconfirmed now past peer.now → result ≡ true }
{
    is_late(digest, call, peer)
}

/// Whether a half-open session is held that is old.
fn is_unconfirmed(digest: &Digest, before: Option<Held>) -> bool
    ensures { result ≡ is_unconfirmed digest.now before }
{
    match before {
        Some(Held::HalfOpen(joined)) => is_old(CONFIRMING, joined.near, digest),
        _ => false,
    }
}

/// The same of what is held with this peer, at a tick.
fn is_late(digest: &Digest, call: &LoggedCall, peer: &[u8; 32]) -> bool
    ensures { result ≡ (is_tick call.now &&
        is_unconfirmed digest.now (held_with digest.now.roll peer.now)) }
{
    is_tick(call) && is_unconfirmed(digest, digest.held(peer))
}

/// Whether the call closes the session under this session ID.
pub fn closed_by_end(call: &LoggedCall, near: u32) -> bool
    ensures yes { (nonce : List ℕ) → result ≡ true → ClosesSession (call_of nonce call.now) near }
    ensures no { (nonce : List ℕ) → ClosesSession (call_of nonce call.now) near → result ≡ true }
{
    closes(call, near)
}

/// Whether what is held with this peer makes way: the next of the event's entries after this one is
/// the birth of a session with it.
pub fn makes_way(peer: &[u8; 32], rest: &[Entry]) -> bool
    ensures yes { result ≡ true → BornFollows peer.now rest.now }
    ensures no { BornFollows peer.now rest.now → result ≡ true }
{
    is_birth_next(peer, rest)
}

/// Whether the first of these entries is such a birth.
fn is_birth_next(peer: &[u8; 32], rest: &[Entry]) -> bool
    ensures { result ≡ is_birth_next peer.now rest.now }
{
    match rest {
        [Entry::Fact(Fact::Born(joined)), ..] => joined.peer == *peer,
        _ => false,
    }
}

/// Whether what is held with this peer ends so, by the call and the entries of the event after this
/// one. Of a cause that hangs on datagrams it says nothing, and answers false.
pub fn ended(
    digest: &Digest,
    call: &LoggedCall,
    rest: &[Entry],
    peer: &[u8; 32],
    near: u32,
    why: Why,
) -> bool
    ensures yes { (secrets : Secrets) (setup : Setup) (nonce : List ℕ) (now : ℕ) (past : Past) →
        IsDigestOf now past digest.now → hangs_on_datagrams why ≡ false → result ≡ true →
        EndedLine secrets setup now (call_of nonce call.now) past rest.now peer.now near why }
    ensures no { (secrets : Secrets) (setup : Setup) (nonce : List ℕ) (now : ℕ) (past : Past) →
        IsDigestOf now past digest.now → hangs_on_datagrams why ≡ false →
        EndedLine secrets setup now (call_of nonce call.now) past rest.now peer.now near why →
        result ≡ true }
{
    is_ended(digest, call, rest, peer, near, why)
}

/// Whether it ends so.
fn is_ended(
    digest: &Digest,
    call: &LoggedCall,
    rest: &[Entry],
    peer: &[u8; 32],
    near: u32,
    why: Why,
) -> bool
    ensures { result ≡ is_ended digest.now call.now rest.now peer.now near why }
{
    match why {
        Why::Cancelled => is_cancelled(call, digest.held(peer)),
        Why::Expired => is_expired(digest, call, peer, near),
        Why::Glare => is_birth_next(peer, rest),
        Why::Override => is_birth_next(peer, rest),
        Why::Unconfirmed => is_late(digest, call, peer),
        Why::Near => closes(call, near),
        Why::Far => false,
        Why::Idle => false,
    }
}

/// Whether the session that is held with this peer ends since nothing came in it: at a tick,
/// 120,000 ms after it began and after the moment `last` at which it took the last datagram; None
/// where it took none (own).
pub fn idle(digest: &Digest, call: &LoggedCall, peer: &[u8; 32], last: Option<u64>) -> bool
    ensures yes { (secrets : Secrets) (setup : Setup) (nonce : List ℕ) (now : ℕ) (past : Past)
        (near : ℕ) → IsDigestOf now past digest.now →
        IsLastWith secrets setup past peer.now near last → result ≡ true →
        IsTick (call_of nonce call.now) × IsIdle secrets setup now past peer.now near }
    ensures no { (secrets : Secrets) (setup : Setup) (nonce : List ℕ) (now : ℕ) (past : Past)
        (near : ℕ) → IsDigestOf now past digest.now →
        IsLastWith secrets setup past peer.now near last →
        IsTick (call_of nonce call.now) × IsIdle secrets setup now past peer.now near →
        result ≡ true }
{
    is_over_idle(digest, call, peer, last)
}

/// Whether a session is held that is old.
fn is_old_session(digest: &Digest, before: Option<Held>) -> bool
    ensures { result ≡ is_old_session digest.now before }
{
    match before {
        Some(thing) => is_session(&thing) && is_old(IDLE, near_of(&thing), digest),
        None => false,
    }
}

/// Whether it took nothing either for so long.
fn is_idle(digest: &Digest, before: Option<Held>, last: Option<u64>) -> bool
    ensures { result ≡ is_idle digest.now before last }
{
    is_old_session(digest, before) && is_quiet(IDLE, last, digest.moment())
}

/// The same of what is held with this peer, at a tick.
fn is_over_idle(digest: &Digest, call: &LoggedCall, peer: &[u8; 32], last: Option<u64>) -> bool
    ensures { result ≡ (is_tick call.now &&
        is_idle digest.now (held_with digest.now.roll peer.now) last) }
{
    is_tick(call) && is_idle(digest, digest.held(peer), last)
}

/// Whether the session under this session ID, which is closing, is over by the time: at a tick,
/// 19,000 ms after it was closed.
pub fn closed_by_time(digest: &Digest, call: &LoggedCall, near: u32) -> bool
    ensures yes { (nonce : List ℕ) (now : ℕ) (past : Past) → IsDigestOf now past digest.now →
        result ≡ true → IsClosedByTime now (call_of nonce call.now) past near }
    ensures no { (nonce : List ℕ) (now : ℕ) (past : Past) → IsDigestOf now past digest.now →
        IsClosedByTime now (call_of nonce call.now) past near → result ≡ true }
{
    is_closed(digest, call, near)
}

/// Whether a closing is over at a tick.
fn is_closed(digest: &Digest, call: &LoggedCall, near: u32) -> bool
    ensures { result ≡ is_closed digest.now call.now near }
{
    is_tick(call) && is_over(CLOSING, closing_since(digest.spot(near)), digest.moment())
}
