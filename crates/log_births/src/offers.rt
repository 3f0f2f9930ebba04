//! What the datagram of an event offers.

ghost use Rattle.std.specs.Prelude.{◌≡◌, ℕ, List, Some};
ghost use Rattle.std.specs.Option.{option_copied};
ghost use Rattle.endpoint_model.specs.declared.config.Draws.{Draws};
ghost use Rattle.endpoint_model.specs.Event.{Setup, receive_in};
ghost use Rattle.endpoint_model.specs.Keying.{initiator_part};
ghost use Rattle.endpoint_laws.specs.Past.{Past};
ghost use Rattle.log_values.specs.Events.{call_of};
ghost use Rattle.log_packets.specs.Asked.{Tells, initiator_shown};
ghost use Rattle.log_packets.specs.Opening.{is_sid, sid_in};
ghost use Rattle.log_facts.specs.Coming.{Comes, IsSaidBy, startup_at};
ghost use Rattle.log_births.specs.Offers.{IsCertFor, IsCurrent, IsOffered, Makes, Offers, SpellsKeying, is_named, is_startup, offer_of, received};

use crate::party::Party;
use cookies::{CookieMaker, CookieTest};
use crypto_profile::Generation;
use glare_core::Joined;
use identity::Certificate;
use log_arrivals::Arrival;
use log_packets::{InitiatorKeying, SecretMap, first_initiator, sid_of};
use log_values::LoggedCall;
use rtmfp_forms::Address;
use rtmfp_packet::{Mode, Packet};
use startup_packets::is_signed;

/// The most bytes of a cookie that is tested.
const MOST_COOKIE: usize = 128;

/// The initiator's component of the key of a session.
fn initiator_part(ni: &[u8; 16], n: u64, own: &[u8; 32]) -> [u8; 56]
    ensures { result ≡ initiator_part ni.now n own.now }
{
    let mut part = [0; 56];
    let (nonce, rest) = part.split_at_mut(16);
    nonce.copy_from_slice(ni);
    let (count, print) = rest.split_at_mut(8);
    count.copy_from_slice(&n.to_be_bytes());
    print.copy_from_slice(own);
    part
}

/// Whether a keying has the session ID of the offer, which isn't 0, and the component of it.
fn is_named(party: &Party<'_>, joined: &Joined, keying: &InitiatorKeying<'_>) -> bool
    ensures { result
        ≡ is_named party.now.own.now (offer_of joined.now) (initiator_shown keying.now) }
{
    if keying.near != joined.far || joined.far == 0 {
        return false;
    }
    let part = initiator_part(&joined.ni, joined.n, party.own);
    keying.part == part.as_slice()
}

/// Whether these bytes are a certificate of this peer, another one than the end's own.
fn is_cert_for(its: &[u8], peer: &[u8; 32], cert: &[u8]) -> bool
    ensures { Tells (IsCertFor its.now peer.now cert.now) result }
{
    match Certificate::read(cert) {
        Ok(read) => cert != its && read.print() == *peer,
        Err(_) => false,
    }
}

/// Whether a cookie comes back in time, from the address that it was made for.
fn is_current(cookies: &CookieMaker, cookie: &[u8], from: &Address, now: u64) -> bool
    ensures { Tells (IsCurrent cookies.now cookie.now from.now now) result }
{
    if cookie.len() > MOST_COOKIE {
        return false;
    }
    match cookies.test(cookie, from, now) {
        CookieTest::Current => true,
        CookieTest::Bad => false,
        CookieTest::Moved => false,
        CookieTest::Expired => false,
    }
}

/// Whether an initiator's keying makes the offer of which the session is born, where its payload
/// spells it.
fn makes(
    party: &Party<'_>,
    from: &Address,
    now: u64,
    under: &Generation,
    joined: &Joined,
    keying: &InitiatorKeying<'_>,
) -> bool
    ensures { SpellsKeying keying.now.payload.now (initiator_shown keying.now) →
        Tells (Makes party.now from.now now under.now.secret keying.now.payload.now
        (offer_of joined.now) (initiator_shown keying.now)) result }
{
    if !is_named(party, joined, keying) {
        return false;
    }
    if !is_cert_for(party.cert, &joined.peer, keying.cert) {
        return false;
    }
    if !is_current(party.cookies, keying.cookie, from, now) {
        return false;
    }
    is_signed(under.sign(), keying.payload, keying.sign)
}

/// Whether a packet has the mode of startup.
fn is_startup(packet: &Packet<'_>) -> bool
    ensures { result ≡ is_startup packet.now.head.mode }
{
    match packet.head().mode {
        Mode::Startup => true,
        Mode::Initiator => false,
        Mode::Responder => false,
    }
}

/// Whether a packet makes the offer of which the session is born.
fn offers(
    party: &Party<'_>,
    from: &Address,
    now: u64,
    under: &Generation,
    joined: &Joined,
    packet: &Packet<'_>,
) -> bool
    ensures { Tells (Offers party.now from.now now (offer_of joined.now) under.now.secret
        packet.now) result }
{
    if !is_startup(packet) {
        return false;
    }
    let Some(keying) = first_initiator(packet) else {
        return false;
    };
    makes(party, from, now, under, joined, &keying)
}

/// The generation of the startup context in which a datagram opens.
fn startup_at(arrival: Arrival) -> Option<u64>
    ensures { result ≡ startup_at arrival }
{
    match arrival {
        Arrival::Startup { generation } => Some(generation),
        _ => None,
    }
}

/// Whether a datagram goes under session ID 0.
fn is_to_zero(datagram: &[u8]) -> bool
    ensures { result ≡ is_sid (sid_in datagram.now) 0 }
{
    match sid_of(datagram) {
        Some(sid) => sid == 0,
        None => false,
    }
}

/// Whether a datagram that came from an address makes the offer.
fn is_offered(
    secrets: &SecretMap,
    party: &Party<'_>,
    from: &Address,
    datagram: &[u8],
    arrival: Arrival,
    packet: Option<&Packet<'_>>,
    now: u64,
    joined: &Joined,
) -> bool
    ensures { (setup : Setup) (past : Past) (plain : List ℕ) (draws : Draws) →
        Comes secrets.now setup past (Some (received from.now datagram.now draws)) plain arrival
        (option_copied packet.entry) →
        Tells (IsSaidBy secrets.now setup past (received from.now datagram.now draws) 0
        (Offers party.now from.now now (offer_of joined.now))) result }
{
    let Some(generation) = startup_at(arrival) else {
        return false;
    };
    let Some(packet) = packet else {
        return false;
    };
    let Some(under) = secrets.get(generation) else {
        return false;
    };
    if !is_to_zero(datagram) {
        return false;
    }
    offers(party, from, now, under, joined, packet)
}

/// Whether the datagram of the event's call makes the offer of which the session is born, at this
/// moment in milliseconds: it opens in a startup context under session ID 0, and its first
/// initiator's keying has the session's values, the certificate of its peer, a cookie of this end
/// for the address and the moment, and the group's signature (own).
pub fn offered(
    secrets: &SecretMap,
    party: &Party<'_>,
    call: &LoggedCall,
    arrival: Arrival,
    packet: Option<&Packet<'_>>,
    now: u64,
    joined: &Joined,
) -> bool
    ensures { (setup : Setup) (past : Past) (nonce plain : List ℕ) →
        Comes secrets.now setup past (receive_in (call_of nonce call.now)) plain arrival
        (option_copied packet.entry) →
        Tells (IsOffered secrets.now setup past party.now now (offer_of joined.now)
        (receive_in (call_of nonce call.now))) result }
{
    match call {
        LoggedCall::Receive { from, datagram } => {
            is_offered(
                secrets,
                party,
                from,
                datagram.bytes(),
                arrival,
                packet,
                now,
                joined,
            )
        }
        _ => false,
    }
}
