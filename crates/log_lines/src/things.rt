//! What may become of a thing that is held.

ghost use Rattle.std.specs.Prelude.{◌≡◌};
ghost use Rattle.glare_core.specs.Things.{near_of};
ghost use Rattle.log_lines.specs.Decisions.{is_attempt, is_attempt_of, is_half_open, is_half_open_under, is_kept, is_session, may_end, may_end_held};

use glare_core::{Held, Joined, Why};
use identity::prevails;

/// The session ID of a thing at this end.
pub(crate) fn near_of(thing: &Held) -> u32
    ensures { result ≡ near_of thing.now }
{
    match thing {
        Held::Opening { near, .. } => *near,
        Held::HalfOpen(joined) => joined.near,
        Held::KeptAsResponder(joined) => joined.near,
        Held::KeptAsInitiator(joined) => joined.near,
    }
}

/// Whether it is an attempt.
fn is_attempt(thing: &Held) -> bool
    ensures { result ≡ is_attempt thing.now }
{
    match thing {
        Held::Opening { .. } => true,
        _ => false,
    }
}

/// Whether it is a session.
pub(crate) fn is_session(thing: &Held) -> bool
    ensures { result ≡ is_session thing.now }
{
    match thing {
        Held::Opening { .. } => false,
        _ => true,
    }
}

/// Whether it is a session that isn't confirmed.
fn is_half_open(thing: &Held) -> bool
    ensures { result ≡ is_half_open thing.now }
{
    match thing {
        Held::HalfOpen(_) => true,
        _ => false,
    }
}

/// Whether it is a session that is kept.
fn is_kept(thing: &Held) -> bool
    ensures { result ≡ is_kept thing.now }
{
    match thing {
        Held::KeptAsResponder(_) => true,
        Held::KeptAsInitiator(_) => true,
        _ => false,
    }
}

/// Whether a cause may end this thing, which is held with this peer.
fn may_end(own: &[u8; 32], peer: &[u8; 32], why: Why, thing: &Held) -> bool
    ensures { result ≡ may_end own.now peer.now why thing.now }
{
    match why {
        Why::Cancelled => is_attempt(thing),
        Why::Expired => is_attempt(thing),
        Why::Glare => is_attempt(thing) && prevails(peer, own),
        Why::Override => is_session(thing),
        Why::Unconfirmed => is_half_open(thing),
        Why::Near => is_session(thing),
        Why::Far => is_session(thing),
        Why::Idle => is_kept(thing),
    }
}

/// Whether what is held with this peer may end by this cause, under this session ID.
pub(crate) fn may_end_held(
    own: &[u8; 32],
    peer: &[u8; 32],
    near: u32,
    why: Why,
    before: Option<Held>,
) -> bool
    ensures { result ≡ may_end_held own.now peer.now near why before }
{
    match before {
        Some(thing) => near == near_of(&thing) && may_end(own, peer, why, &thing),
        None => false,
    }
}

/// Whether the attempt is held that is answered so.
pub(crate) fn is_attempt_of(joined: &Joined, before: Option<Held>) -> bool
    ensures { result ≡ is_attempt_of joined.now before }
{
    match before {
        Some(Held::Opening { n, near, ni }) => n == joined.n
            && near == joined.near
            && ni == joined.ni,
        _ => false,
    }
}

/// Whether a half-open session is held under this session ID.
pub(crate) fn is_half_open_under(near: u32, before: Option<Held>) -> bool
    ensures { result ≡ is_half_open_under near before }
{
    match before {
        Some(Held::HalfOpen(joined)) => near == joined.near,
        _ => false,
    }
}
