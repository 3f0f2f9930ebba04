//! Whole lines of facts, and that of a closing, by what hangs on datagrams and what doesn't.

ghost use Rattle.std.specs.Prelude.{◌≡◌, ◌<◌, ◌^◌, ℕ, List, true};
ghost use Rattle.std.specs.Option.{option_copied};
ghost use Rattle.glare_core.specs.declared.facts.Why.TheVariants.{Idle};
ghost use Rattle.glare_core.specs.Standing.{count};
ghost use Rattle.glare_core.specs.Stands.{EndedStands, Stands};
ghost use Rattle.endpoint_model.specs.Event.{Setup, own_of, receive_in};
ghost use Rattle.endpoint_laws.specs.Past.{Past, facts_of};
ghost use Rattle.endpoint_laws.specs.Contexts.{Secrets};
ghost use Rattle.endpoint_laws.specs.Lawful.{ClosedLine, EndedLine, FactLine, IsCounted, StartedLine};
ghost use Rattle.log_digest.specs.Digest.{IsDigestOf};
ghost use Rattle.log_values.specs.Events.{call_of};
ghost use Rattle.log_lines.specs.Lines.{IsLastWith};
ghost use Rattle.log_packets.specs.Asked.{Tells};
ghost use Rattle.log_arrivals.specs.declared.arrival.Arrival.{Arrival};
ghost use Rattle.log_facts.specs.Coming.{Comes, IsTaken};
ghost use Rattle.log_facts.specs.Lines.{IsFoundFor, WholeLine, is_far, is_idle};

use crate::answers::{opened, started_by_hello};
use crate::sessions::{closed_by_answer, confirmed, far};
use endpoint_model::Entry;
use glare_core::{Fact, Why};
use log_arrivals::Arrival;
use log_digest::Digest;
use log_lines::{closed_by_time, idle, stands};
use log_packets::SecretMap;
use log_values::LoggedCall;
use rtmfp_packet::Packet;

/// Whether an attempt starts by the open of an event that drew `nonce`, or by the answer to the
/// search under its session ID (own).
pub fn started(
    digest: &Digest,
    call: &LoggedCall,
    nonce: &[u8; 16],
    arrival: Arrival,
    packet: Option<&Packet<'_>>,
    peer: &[u8; 32],
    near: u32,
    ni: &[u8; 16],
) -> bool
    ensures { (secrets : Secrets) (setup : Setup) (last : ℕ) (past : Past) (plain : List ℕ)
        (n : ℕ) → IsDigestOf last past digest.now →
        Comes secrets setup past (receive_in (call_of nonce.now call.now)) plain arrival
        (option_copied packet.entry) → n < 2 ^ 64 →
        Tells (StartedLine secrets setup (call_of nonce.now call.now) past peer.now n near ni.now)
        result }
{
    if log_lines::started(digest, call, nonce, peer, near, ni) {
        return true;
    }
    started_by_hello(digest, call, arrival, packet, peer, near, ni)
}

/// Whether the closing under this session ID is over: by the peer's answer, or at a tick, 19,000 ms
/// after it began. `took` tells whether the session under the datagram's session ID took it.
pub fn closed(
    digest: &Digest,
    call: &LoggedCall,
    packet: Option<&Packet<'_>>,
    took: bool,
    near: u32,
) -> bool
    ensures { (secrets : Secrets) (setup : Setup) (now : ℕ) (past : Past) (nonce plain : List ℕ)
        (arrival : Arrival) → IsDigestOf now past digest.now →
        Comes secrets setup past (receive_in (call_of nonce call.now)) plain arrival
        (option_copied packet.entry) →
        IsTaken secrets setup past (receive_in (call_of nonce call.now)) took →
        Tells (ClosedLine secrets setup now (call_of nonce call.now) past near) result }
{
    if closed_by_time(digest, call, near) {
        return true;
    }
    closed_by_answer(digest, call, packet, took, near)
}

/// Whether the peer closed.
fn is_far(why: Why) -> bool
    ensures { result ≡ is_far why }
{
    match why {
        Why::Far => true,
        _ => false,
    }
}

/// Whether nothing came.
fn is_idle(why: Why) -> bool
    ensures { result ≡ is_idle why }
{
    match why {
        Why::Idle => true,
        _ => false,
    }
}

/// Whether what is held with a peer under this session ID ends by this cause, by the call, its
/// datagram and the entries of the event after this one. `took` tells whether the session under the
/// datagram's session ID took it, and `last` when the one under this session ID took the last one.
/// That what is held may end so is asked before: by `stands`.
pub fn ended(
    digest: &Digest,
    call: &LoggedCall,
    rest: &[Entry],
    packet: Option<&Packet<'_>>,
    took: bool,
    last: Option<u64>,
    peer: &[u8; 32],
    near: u32,
    why: Why,
) -> bool
    ensures { (secrets : Secrets) (setup : Setup) (now : ℕ) (past : Past) (nonce plain own : List ℕ)
        (arrival : Arrival) → IsDigestOf now past digest.now →
        Comes secrets setup past (receive_in (call_of nonce call.now)) plain arrival
        (option_copied packet.entry) →
        IsTaken secrets setup past (receive_in (call_of nonce call.now)) took →
        (why ≡ Idle → IsLastWith secrets setup past peer.now near last) →
        EndedStands own (facts_of past) peer.now near why →
        Tells (EndedLine secrets setup now (call_of nonce call.now) past rest.now peer.now near why)
        result }
{
    if is_far(why) {
        return far(call, packet, took, near);
    }
    if is_idle(why) {
        return idle(digest, call, peer, last);
    }
    log_lines::ended(digest, call, rest, peer, near, why)
}

/// Whether a fact meets its line of the table of lawful logs, whole: what it asks of the facts
/// before it, and of its event (own). The fingerprint is the end's own. `took` and `last` are as
/// those of `ended`, and `born` tells whether a Born meets what it asks of its event.
pub fn fact_line(
    secrets: &SecretMap,
    digest: &Digest,
    own: &[u8; 32],
    call: &LoggedCall,
    nonce: &[u8; 16],
    arrival: Arrival,
    packet: Option<&Packet<'_>>,
    took: bool,
    last: Option<u64>,
    born: bool,
    rest: &[Entry],
    fact: &Fact,
) -> bool
    ensures { (setup : Setup) (now : ℕ) (past : Past) (plain : List ℕ) →
        own.now ≡ own_of setup → IsDigestOf now past digest.now →
        Comes secrets.now setup past (receive_in (call_of nonce.now call.now)) plain arrival
        (option_copied packet.entry) →
        IsTaken secrets.now setup past (receive_in (call_of nonce.now call.now)) took →
        IsFoundFor secrets.now setup now (call_of nonce.now call.now) past arrival born last
        fact.now →
        Tells (WholeLine secrets.now setup now (call_of nonce.now call.now) past rest.now fact.now)
        result }
{
    if !stands(digest, own, fact) {
        return false;
    }
    event_line(
        secrets, digest, call, nonce, arrival, packet, took, last, born, rest, fact,
    )
}

/// Whether a fact that stands meets what it asks of its event.
fn event_line(
    secrets: &SecretMap,
    digest: &Digest,
    call: &LoggedCall,
    nonce: &[u8; 16],
    arrival: Arrival,
    packet: Option<&Packet<'_>>,
    took: bool,
    last: Option<u64>,
    born: bool,
    rest: &[Entry],
    fact: &Fact,
) -> bool
    ensures { (setup : Setup) (now : ℕ) (past : Past) (plain own : List ℕ) →
        IsDigestOf now past digest.now →
        Comes secrets.now setup past (receive_in (call_of nonce.now call.now)) plain arrival
        (option_copied packet.entry) →
        IsTaken secrets.now setup past (receive_in (call_of nonce.now call.now)) took →
        IsFoundFor secrets.now setup now (call_of nonce.now call.now) past arrival born last
        fact.now →
        Stands own (count (facts_of past)) (facts_of past) fact.now → IsCounted fact.now →
        Tells (FactLine secrets.now setup now (call_of nonce.now call.now) past rest.now fact.now)
        result }
{
    match fact {
        Fact::Started { peer, near, ni, .. } => {
            started(digest, call, nonce, arrival, packet, peer, *near, ni)
        }
        Fact::Born(_) => born,
        Fact::Opened(joined) => opened(secrets, call, arrival, packet, joined),
        Fact::Confirmed { near, .. } => confirmed(call, arrival, *near),
        Fact::Ended { peer, near, why } => {
            ended(digest, call, rest, packet, took, last, peer, *near, *why)
        }
    }
}
