//! The keyings of attempts.

ghost use Rattle.std.specs.Prelude.{◌≡◌, Some};
ghost use Rattle.rtmfp_packet.specs.declared.head.Mode.TheVariants.{Startup as StartupMode};
ghost use Rattle.endpoint_model.specs.Keying.{initiator_part};
ghost use Rattle.log_contexts.specs.Kept.{keying_at, tag_at};
ghost use Rattle.log_packets.specs.Asked.{initiator_shown, Tells};
ghost use Rattle.log_outs.specs.Standing.{attempt_at, attempt_in};
ghost use Rattle.log_outs.specs.Keyings.{AttemptMay, CameIn, GoesIn, Greets, InitiatorMay};
ghost use Rattle.log_outs.specs.Keyings.{IsGreeting, TakesHello, TakesItsHello, Welcomes};
ghost use Rattle.log_outs.specs.Keyings.{is_of_attempt, is_to_zero};

use crate::sender::{Cause, Sender};
use crypto_profile::Context;
use glare_core::Held;
use log_arrivals::Arrival;
use log_digest::{Digest, Spot};
use log_packets::{InitiatorKeying, hello_from, sid_of};
use log_values::LoggedCall;
use rtmfp_packet::{Mode, Packet, read_packet};

/// The initiator's component of the key of a session.
fn initiator_part(ni: &[u8; 16], n: u64, peer: &[u8; 32]) -> [u8; 56]
    ensures { result ≡ initiator_part ni.now n peer.now }
{
    let mut part = [0; 56];
    let (nonce, rest) = part.split_at_mut(16);
    nonce.copy_from_slice(ni);
    let (count, print) = rest.split_at_mut(8);
    count.copy_from_slice(&n.to_be_bytes());
    print.copy_from_slice(peer);
    part
}

/// An attempt, as a keying of it is judged (own).
#[derive(Clone, Copy)]
pub(crate) struct Attempt {
    /// The fingerprint of its peer.
    pub(crate) peer: [u8; 32],
    /// The component of its keying.
    pub(crate) part: [u8; 56],
}

/// The attempt with this peer, where this is one.
fn attempt_in(peer: &[u8; 32], thing: Option<Held>) -> Option<Attempt>
    ensures { result ≡ attempt_in peer.now thing }
{
    match thing {
        Some(Held::Opening { n, ni, .. }) => Some(Attempt {
            peer: *peer,
            part: initiator_part(&ni, n, peer),
        }),
        Some(Held::HalfOpen(_)) => None,
        Some(Held::KeptAsResponder(_)) => None,
        Some(Held::KeptAsInitiator(_)) => None,
        None => None,
    }
}

/// The attempt that is held under this session ID.
fn attempt_at(digest: &Digest, near: u32) -> Option<Attempt>
    ensures { result ≡ attempt_at near digest.now }
{
    match digest.spot(near) {
        Some(Spot::Holding { peer, .. }) => attempt_in(&peer, digest.held(&peer)),
        Some(Spot::Closing { .. }) => None,
        Some(Spot::Searching { .. }) => None,
        None => None,
    }
}

/// Whether a keying has the certificate of the end and the component of the attempt.
fn is_of_attempt(cert: &[u8], attempt: &Attempt, keying: &InitiatorKeying<'_>) -> bool
    ensures { result ≡ is_of_attempt cert.now attempt.now (initiator_shown keying.now) }
{
    keying.cert == cert && keying.part == attempt.part.as_slice()
}

/// Whether the call gives a datagram under session ID 0.
fn is_to_zero(call: &LoggedCall) -> bool
    ensures { result ≡ is_to_zero call.now }
{
    match call {
        LoggedCall::Receive { datagram, .. } => match sid_of(datagram.bytes()) {
            Some(sid) => sid == 0,
            None => false,
        },
        _ => false,
    }
}

/// Whether the event's datagram opened in startup of this generation under session ID 0.
fn came_in(why: &Cause<'_>, generation: u64) -> bool
    ensures { Tells (CameIn why.now generation) result }
{
    let Arrival::Startup { generation: at } = why.arrival else {
        return false;
    };
    if at != generation {
        return false;
    }
    is_to_zero(why.call)
}

/// Whether a mode is that of startup.
fn is_startup(mode: Mode) -> bool
    ensures { Tells (mode ≡ StartupMode) result }
{
    mode == Mode::Startup
}

/// Whether a packet is one of startup with a responder's hello that an attempt with this tag and
/// this peer takes.
fn welcomes(packet: &Packet<'_>, tag: &[u8; 16], peer: &[u8; 32]) -> bool
    ensures { Tells (Welcomes tag.now peer.now packet.now) result }
{
    if !is_startup(packet.head().mode) {
        return false;
    }
    hello_from(packet, tag, peer)
}

/// Whether these bytes are such a packet.
fn has_hello(plain: &[u8], tag: &[u8; 16], peer: &[u8; 32]) -> bool
    ensures { Tells (IsGreeting tag.now peer.now plain.now) result }
{
    match read_packet(plain) {
        Ok(packet) => welcomes(&packet, tag, peer),
        Err(_) => false,
    }
}

/// Whether the event's datagram has a hello that the attempt under this session ID takes, which has
/// this tag and this peer.
fn takes_hello(
    sender: &Sender<'_>,
    why: &Cause<'_>,
    near: u32,
    tag: &[u8; 16],
    peer: &[u8; 32],
) -> bool
    ensures { Tells (TakesHello sender.now why.now near tag.now peer.now) result }
{
    if !has_hello(why.plain, tag, peer) {
        return false;
    }
    sender.contexts.is_lowest(sender.digest, near, tag)
}

/// The same by the tag that is kept of the attempt.
fn takes_its_hello(sender: &Sender<'_>, why: &Cause<'_>, near: u32, peer: &[u8; 32]) -> bool
    ensures { Tells (TakesItsHello sender.now why.now near
        (tag_at near sender.now.contexts.now.threads) peer.now) result }
{
    match sender.contexts.tag(near) {
        Some(tag) => takes_hello(sender, why, near, &tag, peer),
        None => false,
    }
}

/// Whether the first keying of an attempt may go out in this generation: the event brings a hello
/// that the attempt takes.
fn begins_in(
    sender: &Sender<'_>,
    why: &Cause<'_>,
    near: u32,
    peer: &[u8; 32],
    generation: u64,
) -> bool
    ensures { Tells (Greets sender.now why.now near (tag_at near sender.now.contexts.now.threads)
        peer.now generation) result }
{
    if !came_in(why, generation) {
        return false;
    }
    takes_its_hello(sender, why, near, peer)
}

/// Whether the keying of the attempt with this peer goes out in this generation: in that of the
/// keying before it, and else in that of the hello.
fn goes_in(
    sender: &Sender<'_>,
    why: &Cause<'_>,
    near: u32,
    peer: &[u8; 32],
    generation: u64,
) -> bool
    ensures { Tells (GoesIn sender.now why.now near
        (keying_at near sender.now.contexts.now.threads)
        (tag_at near sender.now.contexts.now.threads) peer.now generation) result }
{
    match sender.contexts.keying(near) {
        Some(went) => went == generation,
        None => begins_in(sender, why, near, peer, generation),
    }
}

/// Whether the keying of this attempt may go out in startup of this generation.
fn attempt_may(
    sender: &Sender<'_>,
    why: &Cause<'_>,
    generation: u64,
    keying: &InitiatorKeying<'_>,
    attempt: &Attempt,
) -> bool
    ensures { Tells (AttemptMay sender.now why.now generation (initiator_shown keying.now)
        (Some attempt.now)) result }
{
    if !is_of_attempt(sender.cert, attempt, keying) {
        return false;
    }
    goes_in(sender, why, keying.near, &attempt.peer, generation)
}

/// Whether an initiator's keying may go out in this context: it is that of an attempt that is held,
/// with the certificate of the end.
pub(crate) fn initiator_may(
    sender: &Sender<'_>,
    why: &Cause<'_>,
    context: &Context,
    keying: &InitiatorKeying<'_>,
) -> bool
    ensures { Tells (InitiatorMay sender.now why.now context.now (initiator_shown keying.now))
        result }
{
    let Context::Startup { generation } = context else {
        return false;
    };
    match attempt_at(sender.digest, keying.near) {
        Some(attempt) => attempt_may(sender, why, *generation, keying, &attempt),
        None => false,
    }
}
