//! The keyings of sessions that were born at an end.

ghost use Rattle.std.specs.Prelude.{◌≡◌, true};
ghost use Rattle.std.specs.FinMap.{get};
ghost use Rattle.endpoint_model.specs.Keying.{responder_part};
ghost use Rattle.log_contexts.specs.Kept.{generation_in};
ghost use Rattle.log_packets.specs.Asked.{responder_shown};
ghost use Rattle.log_outs.specs.Answers.{TellsUnder};
ghost use Rattle.log_outs.specs.Standing.{born_at, born_in};
ghost use Rattle.log_outs.specs.Keyings.{IsSmallBirth, is_of_birth, responder_may};

use crate::sender::Sender;
use crate::sessions::is_far;
use crypto_profile::Context;
use glare_core::{Held, Joined};
use log_digest::{Digest, Spot};
use log_packets::ResponderKeying;

/// A session that was born here.
fn born_in(thing: Option<Held>) -> Option<Joined>
    ensures { result ≡ born_in thing }
{
    match thing {
        Some(Held::HalfOpen(joined)) => Some(joined),
        Some(Held::KeptAsResponder(joined)) => Some(joined),
        Some(Held::KeptAsInitiator(_)) => None,
        Some(Held::Opening { .. }) => None,
        None => None,
    }
}

/// The one that is held under this session ID.
fn born_at(digest: &Digest, near: u32) -> Option<Joined>
    ensures { result ≡ born_at near digest.now }
{
    match digest.spot(near) {
        Some(Spot::Holding { peer, .. }) => born_in(digest.held(&peer)),
        Some(Spot::Closing { .. }) => None,
        Some(Spot::Searching { .. }) => None,
        None => None,
    }
}

/// The responder's component of the key of a session that was born at the end with this
/// fingerprint.
fn responder_part(own: &[u8; 32], joined: &Joined) -> [u8; 72]
    ensures { result ≡ responder_part joined.now.nr joined.now.k own.now joined.now.ni }
{
    let mut part = [0; 72];
    let (nonce, rest) = part.split_at_mut(16);
    nonce.copy_from_slice(&joined.nr);
    let (count, rest) = rest.split_at_mut(8);
    count.copy_from_slice(&joined.k.to_be_bytes());
    let (print, far_nonce) = rest.split_at_mut(32);
    print.copy_from_slice(own);
    far_nonce.copy_from_slice(&joined.ni);
    part
}

/// Whether a keying that goes out in this context under this session ID has the values of the
/// session, which began in this generation.
fn is_of_birth(
    own: &[u8; 32],
    born: Option<Joined>,
    began: Option<u64>,
    context: &Context,
    sid: u32,
    part: &[u8],
) -> bool
    ensures value { result ≡ is_of_birth own.now born began context.now sid part.now }
    ensures small { IsSmallBirth born }
{
    let Some(joined) = born else {
        return false;
    };
    let is_far = is_far(joined, sid);
    let Some(began) = began else {
        return false;
    };
    let Context::Startup { generation } = context else {
        return false;
    };
    is_far && began == *generation && part == responder_part(own, &joined).as_slice()
}

/// Whether it has those of the session that is held under its session ID.
fn is_held_birth(
    sender: &Sender<'_>,
    context: &Context,
    sid: u32,
    keying: &ResponderKeying<'_>,
) -> bool
    ensures value { result ≡ responder_may sender.now context.now sid
        (responder_shown keying.now) }
    ensures small { IsSmallBirth (born_at keying.now.near sender.now.digest.now) }
{
    is_of_birth(
        sender.own,
        born_at(sender.digest, keying.near),
        sender.contexts.generation(keying.near),
        context,
        sid,
        keying.part,
    )
}

/// Whether a responder's keying may go out in this context under this session ID: it is that of a
/// session that was born here and is held, and goes to its peer in the generation in which the
/// session began.
pub(crate) fn responder_may(
    sender: &Sender<'_>,
    context: &Context,
    sid: u32,
    keying: &ResponderKeying<'_>,
) -> bool
    ensures { TellsUnder sid (λ id. responder_may sender.now context.now id
        (responder_shown keying.now) ≡ true) result }
{
    is_held_birth(sender, context, sid, keying)
}
