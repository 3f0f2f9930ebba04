//! What an end did that lets a session be born, or doesn't.

ghost use Rattle.std.specs.Prelude.{◌≡◌, ◌<◌, ◌^◌, is_some};
ghost use Rattle.glare_core.specs.Ledger.{row_in};
ghost use Rattle.log_births.specs.Rooms.{has_room, has_row, is_new, may_bear, takes, takes_after, yields};

use crate::party::{Party, Way};
use glare_core::Held;
use identity::prevails;
use log_digest::Digest;

/// Whether what is held with a peer lets a session be born: an attempt does where the peer
/// prevails.
fn yields(peer: &[u8; 32], own: &[u8; 32], thing: Option<Held>) -> bool
    ensures { result ≡ yields peer.now own.now thing }
{
    match thing {
        Some(Held::Opening { .. }) => prevails(peer, own),
        Some(Held::HalfOpen(_)) => true,
        Some(Held::KeptAsResponder(_)) => true,
        Some(Held::KeptAsInitiator(_)) => true,
        None => true,
    }
}

/// Whether no attempt of the peer was seen with this number or a greater one.
fn is_new(digest: &Digest, peer: &[u8; 32], n: u64) -> bool
    ensures { result ≡ is_new (row_in digest.now.roll.rows peer.now).floor n }
{
    digest.seen(peer) < n
}

/// Whether the peer is known, or there is room for one more.
fn has_row(party: &Party<'_>, digest: &Digest, peer: &[u8; 32]) -> bool
    ensures { result ≡ has_row party.now digest.now peer.now }
{
    digest.knows(peer) || digest.peers() < party.max_peers as usize
}

/// Whether something is held with the peer, or there is room for one more session ID.
fn has_place(party: &Party<'_>, thing: Option<Held>, uses: usize) -> bool
    ensures { result ≡ has_room (is_some thing) uses party.now.max_sessions }
{
    thing.is_some() || uses < party.max_sessions as usize
}

/// Whether a session is born with this peer where this is held with it, and so many session IDs are
/// in use.
fn takes(party: &Party<'_>, peer: &[u8; 32], thing: Option<Held>, uses: usize) -> bool
    ensures { result ≡ takes party.now peer.now thing uses }
{
    yields(peer, party.own, thing) && has_place(party, thing, uses)
}

/// The same of what was before the end that made way, where one with this peer did.
fn takes_after(party: &Party<'_>, peer: &[u8; 32], way: Option<Way>) -> bool
    ensures { result ≡ takes_after party.now peer.now way }
{
    match way {
        Some(way) => way.peer == *peer && takes(party, peer, Some(way.thing), way.uses),
        None => false,
    }
}

/// Whether a session is born of the attempt of this peer with this number, by what the end did, or
/// by what it did before the end that made way.
pub(crate) fn may_bear(
    party: &Party<'_>,
    digest: &Digest,
    way: Option<Way>,
    peer: &[u8; 32],
    n: u64,
) -> bool
    ensures value { result ≡ may_bear party.now digest.now way peer.now n }
    ensures counted { n < 2 ^ 64 }
{
    if !is_new(digest, peer, n) {
        return false;
    }
    if !has_row(party, digest, peer) {
        return false;
    }
    takes(party, peer, digest.held(peer), digest.uses()) || takes_after(party, peer, way)
}
