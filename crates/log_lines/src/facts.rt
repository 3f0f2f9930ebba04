//! What facts ask of the facts before them, and how attempts start.

ghost use Rattle.std.specs.Prelude.{◌≡◌, ◌&&◌, ℕ, List, true};
ghost use Rattle.glare_core.specs.Standing.{count};
ghost use Rattle.glare_core.specs.Stands.{Stands};
ghost use Rattle.endpoint_laws.specs.Past.{Past, facts_of};
ghost use Rattle.endpoint_laws.specs.Lawful.{IsCounted, IsFree, Opens};
ghost use Rattle.log_digest.specs.Digest.{IsDigestOf};
ghost use Rattle.log_values.specs.Events.{call_of};
ghost use Rattle.log_lines.specs.Decisions.{is_standing, is_unused, may_bear, may_start, opens};

use crate::calls::opens;
use crate::moments::is_after;
use crate::things::{is_attempt_of, is_half_open_under, may_end_held};
use glare_core::{Fact, Held, Joined};
use log_digest::Digest;
use log_values::LoggedCall;

/// Whether what a fact asks of the facts before it is so, at an end with this fingerprint: that
/// what it speaks of is held, or nothing is, and that its number is the right one (own). It takes
/// one look at a map, and two for a Born.
pub fn stands(digest: &Digest, own: &[u8; 32], fact: &Fact) -> bool
    ensures yes { (last : ℕ) (past : Past) → IsDigestOf last past digest.now → result ≡ true →
        Stands own.now (count (facts_of past)) (facts_of past) fact.now }
    ensures no { (last : ℕ) (past : Past) → IsDigestOf last past digest.now →
        Stands own.now (count (facts_of past)) (facts_of past) fact.now → result ≡ true }
    ensures counted { IsCounted fact.now }
{
    is_standing(digest, own, fact)
}

/// Whether the fact stands by what is held with its peer and what was counted.
fn is_standing(digest: &Digest, own: &[u8; 32], fact: &Fact) -> bool
    ensures value { result ≡ is_standing own.now digest.now.roll fact.now }
    ensures counted { IsCounted fact.now }
{
    match fact {
        Fact::Started { peer, n, .. } => may_start(
            own,
            digest.started(),
            digest.held(peer),
            peer,
            *n,
        ),
        Fact::Born(joined) => may_bear(
            digest.started(),
            digest.seen(&joined.peer),
            digest.held(&joined.peer),
            joined,
        ),
        Fact::Opened(joined) => is_attempt_of(joined, digest.held(&joined.peer)),
        Fact::Confirmed { peer, near } => is_half_open_under(*near, digest.held(peer)),
        Fact::Ended { peer, near, why } => may_end_held(own, peer, *near, *why, digest.held(peer)),
    }
}

/// Whether the attempt with this number starts, after so many.
fn may_start(own: &[u8; 32], started: u64, before: Option<Held>, peer: &[u8; 32], n: u64) -> bool
    ensures { result ≡ may_start own.now started before peer.now n }
{
    *peer != *own && before.is_none() && is_after(n, started)
}

/// Whether this session is born, after so many attempts.
fn may_bear(started: u64, seen: u64, before: Option<Held>, joined: &Joined) -> bool
    ensures { result ≡ may_bear started seen before joined.now }
{
    seen < joined.n && before.is_none() && joined.k == started
}

/// Whether a session ID isn't 0 and none that is in use.
pub fn is_free(digest: &Digest, near: u32) -> bool
    ensures yes { (last : ℕ) (past : Past) → IsDigestOf last past digest.now → result ≡ true →
        IsFree near past }
    ensures no { (last : ℕ) (past : Past) → IsDigestOf last past digest.now →
        IsFree near past → result ≡ true }
{
    is_unused(digest, near)
}

/// Whether nothing stands under a session ID that isn't 0.
pub(crate) fn is_unused(digest: &Digest, near: u32) -> bool
    ensures { result ≡ is_unused near digest.now }
{
    near != 0 && digest.spot(near).is_none()
}

/// Whether an attempt starts by the open of an event that drew `nonce`: the open is towards the
/// peer, the attempt has that nonce, and its session ID is free.
pub fn started(
    digest: &Digest,
    call: &LoggedCall,
    nonce: &[u8; 16],
    peer: &[u8; 32],
    near: u32,
    ni: &[u8; 16],
) -> bool
    ensures yes { (last : ℕ) (past : Past) → IsDigestOf last past digest.now → result ≡ true →
        Opens (call_of nonce.now call.now) peer.now ni.now × IsFree near past }
    ensures no { (last : ℕ) (past : Past) → IsDigestOf last past digest.now →
        Opens (call_of nonce.now call.now) peer.now ni.now × IsFree near past → result ≡ true }
{
    is_opened(digest, call, nonce, peer, near, ni)
}

/// Whether the call opens it under a free session ID.
fn is_opened(
    digest: &Digest,
    call: &LoggedCall,
    nonce: &[u8; 16],
    peer: &[u8; 32],
    near: u32,
    ni: &[u8; 16],
) -> bool
    ensures { result ≡
        (opens nonce.now call.now peer.now ni.now && is_unused near digest.now) }
{
    opens(nonce, call, peer, ni) && is_unused(digest, near)
}
