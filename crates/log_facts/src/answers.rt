//! Facts that answers to attempts and to searches bring about.

ghost use Rattle.std.specs.Prelude.{◌≡◌, ◌<◌, ◌^◌, ℕ, List, length};
ghost use Rattle.std.specs.Option.{option_copied};
ghost use Rattle.endpoint_model.specs.Event.{Setup, receive_in};
ghost use Rattle.endpoint_model.specs.Keying.{chunks_of};
ghost use Rattle.endpoint_laws.specs.Past.{Past};
ghost use Rattle.endpoint_laws.specs.Contexts.{Secrets};
ghost use Rattle.endpoint_laws.specs.Lawful.{TakesAnswer, TakesHello};
ghost use Rattle.log_digest.specs.Digest.{IsDigestOf};
ghost use Rattle.log_values.specs.Events.{call_of};
ghost use Rattle.log_packets.specs.Asked.{IsAnswer, SomeChunk, Tells};
ghost use Rattle.log_facts.specs.Coming.{Comes, IsSoughtBy};

use crate::coming::{goes_under, startup_at};
use crypto_profile::Generation;
use glare_core::Joined;
use log_arrivals::Arrival;
use log_digest::{Digest, Spot};
use log_packets::{SecretMap, answers, hello_of};
use log_values::LoggedCall;
use rtmfp_packet::Packet;

/// Whether the datagram of the event's call answers the attempt of a session that opens: it opens
/// in a startup context under the attempt's session ID, and has a responder's keying with the
/// session's values (own).
pub fn opened(
    secrets: &SecretMap,
    call: &LoggedCall,
    arrival: Arrival,
    packet: Option<&Packet<'_>>,
    joined: &Joined,
) -> bool
    ensures { (setup : Setup) (past : Past) (nonce plain : List ℕ) →
        Comes secrets.now setup past (receive_in (call_of nonce call.now)) plain arrival
        (option_copied packet.entry) →
        Tells (TakesAnswer secrets.now setup past (call_of nonce call.now) joined.now) result }
{
    let Some(generation) = startup_at(arrival) else {
        return false;
    };
    let Some(packet) = packet else {
        return false;
    };
    let Some(under) = secrets.get(generation) else {
        return false;
    };
    if !goes_under(call, joined.near) {
        return false;
    }
    is_answered(packet, *joined, under)
}

/// Whether a packet answers the attempt under this secret.
fn is_answered(packet: &Packet<'_>, joined: Joined, under: &Generation) -> bool
    ensures tells { Tells (SomeChunk (IsAnswer under.now.secret joined) (chunks_of packet.now))
        result }
    ensures counted { joined.k < 2 ^ 64 }
{
    answers(packet, &joined, under)
}

/// Whether an attempt with this nonce starts by the answer to the search under this session ID: the
/// datagram of the event's call opens in a startup context under session ID 0, and has a
/// responder's hello with the search's tag, and with a certificate of its name and of this peer
/// (own).
pub fn started_by_hello(
    digest: &Digest,
    call: &LoggedCall,
    arrival: Arrival,
    packet: Option<&Packet<'_>>,
    peer: &[u8; 32],
    near: u32,
    ni: &[u8; 16],
) -> bool
    ensures { (secrets : Secrets) (setup : Setup) (last : ℕ) (past : Past) (nonce plain : List ℕ)
        (n : ℕ) → IsDigestOf last past digest.now →
        Comes secrets setup past (receive_in (call_of nonce call.now)) plain arrival
        (option_copied packet.entry) → n < 2 ^ 64 →
        Tells (TakesHello secrets setup past (call_of nonce call.now) peer.now n near ni.now)
        result }
{
    let Some(_) = startup_at(arrival) else {
        return false;
    };
    let Some(packet) = packet else {
        return false;
    };
    if !goes_under(call, 0) {
        return false;
    }
    let Some(spot) = digest.spot(near) else {
        return false;
    };
    is_sought(&spot, packet, peer, ni)
}

/// Whether a packet answers a search that stands so and drew this nonce.
fn is_sought(spot: &Spot, packet: &Packet<'_>, peer: &[u8; 32], ni: &[u8; 16]) -> bool
    ensures tells { Tells (IsSoughtBy spot.now peer.now ni.now (chunks_of packet.now)) result }
    ensures sized { length ni.now ≡ 16 }
{
    match spot {
        Spot::Searching {
            name,
            tag,
            ni: drawn,
            ..
        } => {
            if *drawn != *ni {
                return false;
            }
            hello_of(packet, tag, name.bytes(), peer)
        }
        Spot::Holding { .. } => false,
        Spot::Closing { .. } => false,
    }
}
