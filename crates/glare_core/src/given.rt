//! What facts say of the things that are held, and which fact each call gives of them.

ghost use Rattle.std.specs.Prelude.{◌≡◌, IfSome, Some, None};
ghost use Rattle.glare_core.specs.Standing.{peer_of, after, seen_in};
ghost use Rattle.glare_core.specs.Things.{near_of};
ghost use Rattle.glare_core.specs.Calls.{is_born_of, session_again, again_of, glare_of, way_made, opened_fact, confirmed_fact, ended_fact, IsOf};

use crate::answers::{HearRefusal, Keying};
use crate::facts::{Fact, Held, Joined, Why};
use identity::prevails;

/// The peer that a fact speaks of.
pub fn peer_of(fact: &Fact) -> [u8; 32]
    ensures { result ≡ peer_of fact.now }
{
    match fact {
        Fact::Started { peer, .. } | Fact::Confirmed { peer, .. } | Fact::Ended { peer, .. } =>
            *peer,
        Fact::Born(joined) | Fact::Opened(joined) => joined.peer,
    }
}

/// What is held after a fact with its peer.
pub fn held_after(fact: &Fact, before: Option<Held>) -> Option<Held>
    ensures { result ≡ after fact.now before }
{
    match fact {
        Fact::Started { n, near, ni, .. } => Some(Held::Opening {
            n: *n,
            near: *near,
            ni: *ni,
        }),
        Fact::Born(joined) => Some(Held::HalfOpen(*joined)),
        Fact::Opened(joined) => match before {
            Some(Held::Opening { .. }) => Some(Held::KeptAsInitiator(*joined)),
            other => other,
        },
        Fact::Confirmed { .. } => match before {
            Some(Held::HalfOpen(joined)) => Some(Held::KeptAsResponder(joined)),
            other => other,
        },
        Fact::Ended { .. } => None,
    }
}

/// The number that a fact adds to those seen of its peer.
pub fn number_in(fact: &Fact) -> u64
    ensures { result ≡ seen_in fact.now }
{
    match fact {
        Fact::Born(joined) => joined.n,
        Fact::Opened(joined) => joined.k,
        _ => 0,
    }
}

/// Whether the session was born of this very keying of its peer.
pub(crate) fn is_born_of(joined: &Joined, keying: &Keying) -> bool
    ensures { result ≡ is_born_of joined.now keying.now }
{
    joined.n == keying.n && joined.ni == keying.ni && joined.far == keying.far
}

/// The held session, where it was born of this very keying.
pub(crate) fn session_again(held: &Option<Held>, keying: &Keying) -> Option<Joined>
    ensures { result ≡ session_again held.now keying.now }
{
    match held {
        Some(Held::HalfOpen(joined)) | Some(Held::KeptAsResponder(joined)) => {
            if is_born_of(joined, keying) {
                Some(*joined)
            } else {
                None
            }
        }
        _ => None,
    }
}

/// The near id of the held session, where it was born of this very keying.
pub(crate) fn again(held: &Option<Held>, keying: &Keying) -> Option<u32>
    ensures { result ≡ again_of held.now keying.now }
{
    match session_again(held, keying) {
        Some(joined) => Some(joined.near),
        None => None,
    }
}

/// The number of the held attempt, where the own end prevails.
pub(crate) fn glare(own: &[u8; 32], peer: &[u8; 32], held: &Option<Held>) -> Option<HearRefusal>
    ensures { result ≡ glare_of own.now peer.now held.now }
{
    match held {
        Some(Held::Opening { n, .. }) => {
            if prevails(own, peer) {
                Some(HearRefusal::Glare(*n))
            } else {
                None
            }
        }
        _ => None,
    }
}

/// The near id of a thing that is held.
pub(crate) fn near_of(held: &Held) -> u32
    ensures { result ≡ near_of held.now }
{
    match held {
        Held::Opening { near, .. } => *near,
        Held::HalfOpen(joined) | Held::KeptAsResponder(joined) | Held::KeptAsInitiator(joined) =>
            joined.near,
    }
}

/// The end of what is held, where a session is born.
pub(crate) fn way_made(peer: &[u8; 32], held: &Option<Held>) -> Option<Fact>
    ensures fact { result ≡ way_made peer.now held.now }
    ensures of { IfSome result (IsOf peer.now held.now) }
{
    match held {
        None => None,
        Some(Held::Opening { near, .. }) => Some(Fact::Ended {
            peer: *peer,
            near: *near,
            why: Why::Glare,
        }),
        Some(session) => Some(Fact::Ended {
            peer: *peer,
            near: near_of(session),
            why: Why::Override,
        }),
    }
}

/// The opening of the held attempt.
pub(crate) fn opened_fact(
    held: &Option<Held>,
    peer: &[u8; 32],
    nr: [u8; 16],
    far: u32,
    k: u64,
) -> Option<Fact>
    ensures fact { result ≡ opened_fact held.now peer.now nr far k }
    ensures of { IfSome result (IsOf peer.now held.now) }
{
    match held {
        Some(Held::Opening { n, near, ni }) => Some(Fact::Opened(Joined {
            peer: *peer,
            n: *n,
            near: *near,
            far,
            ni: *ni,
            nr,
            k,
        })),
        _ => None,
    }
}

/// The confirmation of the held half-open session.
pub(crate) fn confirmed_fact(held: &Option<Held>, peer: &[u8; 32]) -> Option<Fact>
    ensures fact { result ≡ confirmed_fact held.now peer.now }
    ensures of { IfSome result (IsOf peer.now held.now) }
{
    match held {
        Some(Held::HalfOpen(joined)) => Some(Fact::Confirmed {
            peer: *peer,
            near: joined.near,
        }),
        _ => None,
    }
}

/// The end of the held thing.
pub(crate) fn ended_fact(held: &Option<Held>, peer: &[u8; 32], why: Why) -> Option<Fact>
    ensures fact { result ≡ ended_fact held.now peer.now why }
    ensures of { IfSome result (IsOf peer.now held.now) }
{
    match held {
        Some(thing) => Some(Fact::Ended {
            peer: *peer,
            near: near_of(thing),
            why,
        }),
        None => None,
    }
}
