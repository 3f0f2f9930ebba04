//! The line of the birth of a session.

ghost use Rattle.std.specs.Prelude.{◌≡◌, ℕ, List, length};
ghost use Rattle.std.specs.Str.{bytes_eq};
ghost use Rattle.std.specs.Option.{option_copied};
ghost use Rattle.endpoint_model.specs.Event.{Setup, receive_in};
ghost use Rattle.endpoint_laws.specs.Past.{Past};
ghost use Rattle.endpoint_laws.specs.Lawful.{BornLine};
ghost use Rattle.log_digest.specs.Digest.{IsDigestOf};
ghost use Rattle.log_values.specs.Events.{call_of};
ghost use Rattle.log_packets.specs.Asked.{Tells};
ghost use Rattle.log_facts.specs.Coming.{Comes};
ghost use Rattle.log_births.specs.Births.{IsPartyOf, IsWay, Stays};

use crate::offers::offered;
use crate::party::{Party, Way};
use crate::rooms::may_bear;
use glare_core::Joined;
use log_arrivals::Arrival;
use log_digest::Digest;
use log_lines::is_free;
use log_packets::SecretMap;
use log_values::LoggedCall;
use rtmfp_packet::Packet;

/// Whether a session has the nonce that its event drew.
fn is_drawn(joined: Joined, nonce: &[u8; 16]) -> bool
    ensures value { result ≡ bytes_eq joined.nr nonce.now }
    ensures sized { length joined.ni ≡ 16 }
{
    joined.nr == *nonce
}

/// Whether the birth of a session meets what it asks of its event, which drew `nonce` (own): the
/// datagram of the call makes the offer, what the end did lets a session be born of it, and the
/// session's ID is free. `way` is what was before the entry directly before, where that is an end
/// that makes way for a birth; the offer may be judged by what was before it.
pub fn born(
    secrets: &SecretMap,
    party: &Party<'_>,
    digest: &Digest,
    call: &LoggedCall,
    nonce: &[u8; 16],
    arrival: Arrival,
    packet: Option<&Packet<'_>>,
    way: Option<Way>,
    joined: &Joined,
) -> bool
    ensures { (setup : Setup) (now : ℕ) (past : Past) (plain : List ℕ) →
        IsPartyOf setup party.now → IsDigestOf now past digest.now →
        Comes secrets.now setup past (receive_in (call_of nonce.now call.now)) plain arrival
        (option_copied packet.entry) →
        Stays setup past (receive_in (call_of nonce.now call.now)) → IsWay now past way →
        Tells (BornLine secrets.now setup now (call_of nonce.now call.now) past joined.now)
        result }
{
    if !is_drawn(*joined, nonce) {
        return false;
    }
    if !is_free(digest, joined.near) {
        return false;
    }
    if !may_bear(party, digest, way, &joined.peer, joined.n) {
        return false;
    }
    offered(
        secrets,
        party,
        call,
        arrival,
        packet,
        digest.moment(),
        joined,
    )
}
