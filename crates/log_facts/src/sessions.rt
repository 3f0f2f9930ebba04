//! Facts and closings that datagrams in sessions bring about.

ghost use Rattle.std.specs.Prelude.{◌≡◌, ◌&&◌, ℕ, List};
ghost use Rattle.std.specs.Option.{option_copied};
ghost use Rattle.glare_core.specs.declared.facts.Held.TheVariants.{HalfOpen};
ghost use Rattle.glare_core.specs.declared.facts.Joined.{Joined};
ghost use Rattle.glare_core.specs.declared.facts.Why.TheVariants.{Far};
ghost use Rattle.glare_core.specs.Standing.{held};
ghost use Rattle.glare_core.specs.Stands.{ConfirmedStands, EndedStands};
ghost use Rattle.endpoint_model.specs.Event.{Setup, receive_in};
ghost use Rattle.endpoint_laws.specs.Past.{Past, before_event, facts_of};
ghost use Rattle.endpoint_laws.specs.Contexts.{Secrets};
ghost use Rattle.endpoint_laws.specs.Lawful.{ConfirmedLine, FarLine};
ghost use Rattle.log_digest.specs.Digest.{IsDigestOf};
ghost use Rattle.log_values.specs.Events.{call_of};
ghost use Rattle.log_packets.specs.Opening.{is_sid};
ghost use Rattle.log_packets.specs.Asked.{Tells};
ghost use Rattle.log_arrivals.specs.declared.arrival.Arrival.{Arrival};
ghost use Rattle.log_arrivals.specs.declared.arrival.Arrival.TheVariants.{Session as InSession};
ghost use Rattle.log_arrivals.specs.Arrivals.{ArrivesIn};
ghost use Rattle.log_lines.specs.Decisions.{is_session};
ghost use Rattle.log_facts.specs.Coming.{Comes, IsClosedByAnswer, IsTaken, StoodAlone, is_closing, is_in_session, sid_under};

use crate::coming::{goes_under, is_in_session};
use glare_core::Held;
use log_arrivals::Arrival;
use log_digest::{Digest, Spot};
use log_packets::{has_close, has_close_ack};
use log_values::LoggedCall;
use rtmfp_packet::Packet;

/// Whether the half-open session that is held with a peer under this session ID is confirmed, as
/// the datagram of the event's call opened in it (own). That one is held is asked before: by
/// `stands`.
pub fn confirmed(call: &LoggedCall, arrival: Arrival, near: u32) -> bool
    ensures { (secrets : Secrets) (setup : Setup) (past : Past) (nonce plain peer : List ℕ) →
        ArrivesIn secrets setup (before_event past) (receive_in (call_of nonce call.now)) plain
        arrival → ConfirmedStands (facts_of past) peer near →
        ((j : Joined) → arrival ≡ InSession → held peer (facts_of past) ≡ Some (HalfOpen j) →
        StoodAlone past j.near (HalfOpen j)) →
        Tells (ConfirmedLine secrets setup (call_of nonce call.now) past peer near) result }
{
    is_confirmed(call, arrival, near)
}

/// Whether the datagram opened in the session under this session ID.
fn is_confirmed(call: &LoggedCall, arrival: Arrival, near: u32) -> bool
    ensures { (nonce : List ℕ) → result ≡
        (is_in_session arrival && is_sid (sid_under (receive_in (call_of nonce call.now))) near) }
{
    is_in_session(arrival) && goes_under(call, near)
}

/// Whether the session under this session ID took the datagram of the call, where `took` tells it
/// of the one under the datagram's own.
fn is_taken(call: &LoggedCall, took: bool, near: u32) -> bool
    ensures { (nonce : List ℕ) → result ≡
        (took && is_sid (sid_under (receive_in (call_of nonce call.now))) near) }
{
    took && goes_under(call, near)
}

/// Whether the session that is held with a peer under this session ID ends as the peer closed it:
/// it took the datagram of the event's call, which has a close. `took` tells whether the session
/// under the datagram's session ID took it. That one is held is asked before: by `stands`.
pub fn far(call: &LoggedCall, packet: Option<&Packet<'_>>, took: bool, near: u32) -> bool
    ensures { (secrets : Secrets) (setup : Setup) (past : Past) (nonce plain own peer : List ℕ)
        (arrival : Arrival) →
        Comes secrets setup past (receive_in (call_of nonce call.now)) plain arrival
        (option_copied packet.entry) →
        IsTaken secrets setup past (receive_in (call_of nonce call.now)) took →
        EndedStands own (facts_of past) peer near Far →
        Tells (FarLine secrets setup (call_of nonce call.now) past peer near) result }
{
    if !is_taken(call, took, near) {
        return false;
    }
    let Some(packet) = packet else {
        return false;
    };
    has_close(packet)
}

/// Whether a thing is a session.
fn is_session(thing: &Held) -> bool
    ensures { result ≡ is_session thing.now }
{
    match thing {
        Held::Opening { .. } => false,
        _ => true,
    }
}

/// Whether a session is closing that stands so.
fn is_closing(spot: Option<Spot>) -> bool
    ensures { result ≡ is_closing spot }
{
    match spot {
        Some(Spot::Closing { thing, .. }) => is_session(&thing),
        _ => false,
    }
}

/// Whether the closing under this session ID is over by the peer's answer: the session took the
/// datagram of the event's call, which has the answer to a close. `took` is as that of `far`.
pub fn closed_by_answer(
    digest: &Digest,
    call: &LoggedCall,
    packet: Option<&Packet<'_>>,
    took: bool,
    near: u32,
) -> bool
    ensures { (secrets : Secrets) (setup : Setup) (last : ℕ) (past : Past) (nonce plain : List ℕ)
        (arrival : Arrival) → IsDigestOf last past digest.now →
        Comes secrets setup past (receive_in (call_of nonce call.now)) plain arrival
        (option_copied packet.entry) →
        IsTaken secrets setup past (receive_in (call_of nonce call.now)) took →
        Tells (IsClosedByAnswer secrets setup (call_of nonce call.now) past near) result }
{
    if !is_taken(call, took, near) {
        return false;
    }
    if !is_closing(digest.spot(near)) {
        return false;
    }
    let Some(packet) = packet else {
        return false;
    };
    has_close_ack(packet)
}
