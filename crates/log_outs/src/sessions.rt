//! Datagrams that go out in sessions.

ghost use Rattle.std.specs.Prelude.{◌≡◌, ◌==◌, ◌<◌, ◌^◌, false, true};
ghost use Rattle.glare_core.specs.Tells.{as_initiator, as_responder};
ghost use Rattle.endpoint_laws.specs.Contexts.{session_context};
ghost use Rattle.log_outs.specs.Standing.{standing_at};
ghost use Rattle.log_outs.specs.Sessions.{IsSmall, IsSmallIn, is_born_in_way, is_in_session};
ghost use Rattle.log_outs.specs.Sessions.{is_in_way, is_opened_in_way, stands_on};
ghost use Rattle.log_outs.specs.Answers.{TellsUnder};

use crate::sender::Sender;
use crypto_profile::Context;
use glare_core::{Held, Joined};
use log_digest::{Digest, Spot};

/// What is held or closing under a session ID.
fn standing(digest: &Digest, near: u32) -> Option<Held>
    ensures { result ≡ standing_at near digest.now }
{
    match digest.spot(near) {
        Some(Spot::Holding { peer, .. }) => digest.held(&peer),
        Some(Spot::Closing { thing, .. }) => Some(thing),
        Some(Spot::Searching { .. }) => None,
        None => None,
    }
}

/// The context in which an end with this fingerprint sends in a session that was born there.
fn to_initiator(own: &[u8; 32], generation: u64, joined: &Joined) -> Context
    ensures { result ≡ session_context generation (as_responder own.now joined.now) false }
{
    Context::Session {
        generation,
        ni: joined.ni,
        nr: joined.nr,
        fp_i: joined.peer,
        fp_r: *own,
        sid_i: joined.far,
        sid_r: joined.near,
        to_responder: false,
    }
}

/// The context in which it sends in a session that it opened.
fn to_responder(own: &[u8; 32], generation: u64, joined: &Joined) -> Context
    ensures { result ≡ session_context generation (as_initiator own.now joined.now) true }
{
    Context::Session {
        generation,
        ni: joined.ni,
        nr: joined.nr,
        fp_i: *own,
        fp_r: joined.peer,
        sid_i: joined.near,
        sid_r: joined.far,
        to_responder: true,
    }
}

/// Whether the peer of a session takes datagrams under this session ID.
pub(crate) fn is_far(joined: Joined, sid: u32) -> bool
    ensures is { result ≡ (joined.far == sid) }
    ensures small { joined.far < 2 ^ 32 }
{
    joined.far == sid
}

/// Whether a thing that stands, and began in this generation if it is a session, sends in this
/// context under this session ID.
fn is_in_way(
    own: &[u8; 32],
    began: Option<u64>,
    thing: Option<Held>,
    context: &Context,
    sid: u32,
) -> bool
    ensures value { result ≡ is_in_way own.now began thing context.now sid }
    ensures small { IsSmall thing }
{
    match thing {
        Some(Held::HalfOpen(joined)) => is_born_in_way(own, began, joined, context, sid),
        Some(Held::KeptAsResponder(joined)) => is_born_in_way(own, began, joined, context, sid),
        Some(Held::KeptAsInitiator(joined)) => is_opened_in_way(own, began, joined, context, sid),
        Some(Held::Opening { .. }) => false,
        None => false,
    }
}

/// The same of a session that was born here.
fn is_born_in_way(
    own: &[u8; 32],
    began: Option<u64>,
    joined: Joined,
    context: &Context,
    sid: u32,
) -> bool
    ensures value { result ≡ is_born_in_way own.now began joined context.now sid }
    ensures small { joined.far < 2 ^ 32 }
{
    match began {
        Some(began) => is_far(joined, sid) && to_initiator(own, began, &joined).is_same(context),
        None => false,
    }
}

/// The same of a session that was opened here.
fn is_opened_in_way(
    own: &[u8; 32],
    began: Option<u64>,
    joined: Joined,
    context: &Context,
    sid: u32,
) -> bool
    ensures value { result ≡ is_opened_in_way own.now began joined context.now sid }
    ensures small { joined.far < 2 ^ 32 }
{
    match began {
        Some(began) => is_far(joined, sid) && to_responder(own, began, &joined).is_same(context),
        None => false,
    }
}

/// Whether what stands under a session ID of the end sends in this context under this session ID.
fn stands_on(sender: &Sender<'_>, near: u32, context: &Context, sid: u32) -> bool
    ensures value { result ≡ stands_on sender.now.own.now sender.now.digest.now
        sender.now.contexts.now near context.now sid }
    ensures small { IsSmall (standing_at near sender.now.digest.now) }
{
    is_in_way(
        sender.own,
        sender.contexts.generation(near),
        standing(sender.digest, near),
        context,
        sid,
    )
}

/// Whether a datagram that goes out in this context goes under the far session ID of a session that
/// is held or closing, away from this end and in the generation in which that session began. Of
/// startup it asks nothing.
pub(crate) fn is_in_session(sender: &Sender<'_>, context: &Context, sid: u32) -> bool
    ensures value { result ≡ is_in_session sender.now.own.now sender.now.digest.now
        sender.now.contexts.now context.now sid }
    ensures tells { TellsUnder sid (λ id. is_in_session sender.now.own.now sender.now.digest.now
        sender.now.contexts.now context.now id ≡ true) result }
{
    is_lawful_way(sender, context, sid)
}

/// Whether it does, by the side of the context that is this end's.
fn is_lawful_way(sender: &Sender<'_>, context: &Context, sid: u32) -> bool
    ensures value { result ≡ is_in_session sender.now.own.now sender.now.digest.now
        sender.now.contexts.now context.now sid }
    ensures small { IsSmallIn sender.now.digest.now context.now }
{
    match context {
        Context::Startup { .. } => true,
        Context::Session {
            sid_i,
            sid_r,
            to_responder,
            ..
        } => {
            let near = if *to_responder { *sid_i } else { *sid_r };
            stands_on(sender, near, context, sid)
        }
    }
}
