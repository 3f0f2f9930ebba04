//! The contexts in which an end takes a datagram, and the one in which it opens.

ghost use Rattle.std.specs.Prelude.{◌≡◌, ◌∷◌, [], None, true, false, IfOk, OnErr};
ghost use Rattle.glare_core.specs.Tells.{as_initiator, as_responder};
ghost use Rattle.endpoint_laws.specs.Contexts.{session_context};
ghost use Rattle.log_packets.specs.Opening.{startup_of};
ghost use Rattle.log_arrivals.specs.Contexts.{IsOpenedFirst, arrival_of, contexts_to, inward_to};

use crate::arrival::Arrival;
use crypto_profile::Context;
use glare_core::{Held, Joined};
use log_contexts::Taking;
use log_packets::{Opener, SecretMap};
use rtmfp_base::Memory;

/// The context of a session that was born at this end, towards it.
fn to_responder(own: &[u8; 32], generation: u64, j: &Joined) -> Context
    ensures { result ≡ session_context generation (as_responder own.now j.now) true }
{
    Context::Session {
        generation,
        ni: j.ni,
        nr: j.nr,
        fp_i: j.peer,
        fp_r: *own,
        sid_i: j.far,
        sid_r: j.near,
        to_responder: true,
    }
}

/// The context of a session that was opened at this end, towards it.
fn to_initiator(own: &[u8; 32], generation: u64, j: &Joined) -> Context
    ensures { result ≡ session_context generation (as_initiator own.now j.now) false }
{
    Context::Session {
        generation,
        ni: j.ni,
        nr: j.nr,
        fp_i: *own,
        fp_r: j.peer,
        sid_i: j.near,
        sid_r: j.far,
        to_responder: false,
    }
}

/// The context in which an end with this fingerprint takes datagrams for what it holds.
fn inward(own: &[u8; 32], generation: u64, thing: &Held) -> Context
    ensures { result ≡ inward_to own.now generation thing.now }
{
    match thing {
        Held::Opening { .. } => Context::Startup { generation },
        Held::HalfOpen(j) => to_responder(own, generation, j),
        Held::KeptAsResponder(j) => to_responder(own, generation, j),
        Held::KeptAsInitiator(j) => to_initiator(own, generation, j),
    }
}

/// Where a datagram opens that opens in this context.
pub(crate) fn arrival_of(context: &Option<Context>) -> Arrival
    ensures { result ≡ arrival_of context.now }
{
    match context {
        None => Arrival::Nowhere,
        Some(Context::Startup { generation }) => Arrival::Startup {
            generation: *generation,
        },
        Some(Context::Session { .. }) => Arrival::Session,
    }
}

/// Opens a datagram in startup of the current generation, or else of the next one where that is
/// known.
fn in_startup(
    secrets: &SecretMap,
    current: u64,
    next: Option<u64>,
    opener: &mut Opener,
    sid: u32,
    datagram: &[u8],
) -> Result<Option<Context>, Memory>
    ensures is { IfOk result (λ found.
        IsOpenedFirst secrets.now (startup_of current next) sid datagram.now found opener.new) }
    ensures same { IfOk result (λ found. found ≡ None → opener.new ≡ opener.old) }
    ensures err { OnErr result (opener.new ≡ opener.old) }
{
    match opener.open_first(secrets, current, next, sid, datagram) {
        Ok(Some(generation)) => Ok(Some(Context::Startup { generation })),
        Ok(None) => Ok(None),
        Err(Memory) => Err(Memory),
    }
}

/// Opens a datagram in one context.
fn in_one(
    secrets: &SecretMap,
    context: Context,
    opener: &mut Opener,
    sid: u32,
    datagram: &[u8],
) -> Result<Option<Context>, Memory>
    ensures is { IfOk result (λ found.
        IsOpenedFirst secrets.now (context ∷ []) sid datagram.now found opener.new) }
    ensures same { IfOk result (λ found. found ≡ None → opener.new ≡ opener.old) }
    ensures err { OnErr result (opener.new ≡ opener.old) }
{
    match opener.open(secrets, &context, sid, datagram) {
        Ok(true) => Ok(Some(context)),
        Ok(false) => Ok(None),
        Err(Memory) => Err(Memory),
    }
}

/// Opens a datagram as an end with this fingerprint takes those under this session ID, and tells in
/// which context it opens. Where it does its plain packet is held, else the one before.
pub(crate) fn open_in(
    secrets: &SecretMap,
    own: &[u8; 32],
    taking: &Taking,
    opener: &mut Opener,
    sid: u32,
    datagram: &[u8],
) -> Result<Option<Context>, Memory>
    ensures is { IfOk result (λ found. IsOpenedFirst secrets.now
        (contexts_to own.now taking.now) sid datagram.now found opener.new) }
    ensures same { IfOk result (λ found. found ≡ None → opener.new ≡ opener.old) }
    ensures err { OnErr result (opener.new ≡ opener.old) }
{
    match taking {
        Taking::Nothing => Ok(None),
        Taking::Startup { current, next } => {
            in_startup(secrets, *current, *next, opener, sid, datagram)
        }
        Taking::Attempt { generation } => {
            in_startup(secrets, *generation, None, opener, sid, datagram)
        }
        Taking::Session { thing, generation } => {
            let context = inward(own, *generation, thing);
            in_one(secrets, context, opener, sid, datagram)
        }
    }
}
