//! The plain packets of session startup: the flags, and one chunk (own profile over RFC 7016
//! section 2.3).

ghost use Rattle.std.specs.Prelude.{ℕ, List, ◌≡◌, ◌≤◌, ◌+◌, ◌++◌, ◌∷◌, [], length};
ghost use Rattle.std.specs.Int.{to_be_bytes};
ghost use Rattle.rtmfp_forms.specs.Address.{AddressSpells, address_bytes};
ghost use Rattle.rtmfp_forms.specs.Outgoing.{packet_limit};
ghost use Rattle.rtmfp_chunks.specs.Chunk.{chunk_of, IIKeying, RIKeying};
ghost use Rattle.rtmfp_chunks.specs.Fields.{AreAddresses};
ghost use Rattle.rtmfp_chunks.specs.Writing.{IsWritable, payload_bytes};
ghost use Rattle.startup_packets.specs.Packets.{startup_packet, ihello_packet, rhello_packet, cookiechange_packet, initiator_part, responder_part, signature_by, iikeying_signed, rikeying_signature, rikeying_signed, rikeying_with};
ghost use Rattle.startup_packets.specs.Packets.{addresses_bytes, redirect_packet};

use crypto_profile::HmacKey;
use rtmfp_chunks::{ChunkView, write_chunk};
use rtmfp_forms::{Address, Outgoing, write_address};

/// The flags of startup mode, without stamps (RFC 7016 section 2.2.4).
const STARTUP_FLAGS: u8 = 0x03;

/// The bytes of such a packet before the payload of its chunk: the flags, the type and the length.
const HEAD_LEN: usize = 4;

/// The packet of a chunk.
fn packet_of(view: &ChunkView<'_>) -> Outgoing
    requires writable { IsWritable (chunk_of view.now) }
    requires fits { length (startup_packet (chunk_of view.now)) ≤ packet_limit }
    ensures { result ≡ startup_packet (chunk_of view.now) }
{
    let mut plain = Outgoing::new(STARTUP_FLAGS);
    match write_chunk(view, &mut plain) {
        Ok(()) => plain,
        Err(_) => unreachable!(),
    }
}

/// The request to open a session (RFC 7016 section 2.3.2).
#[tactic(auto, using(crate::proofs::Sizes::ihello_length), unfolding(crate::specs::Packets::ihello_packet))]
pub fn ihello_packet(epd: &[u8], tag: &[u8]) -> Outgoing
    requires epd { length epd.now ≤ 128 }
    requires tag { length tag.now ≤ 128 }
    ensures { result ≡ ihello_packet epd.now tag.now }
{
    packet_of(&ChunkView::IHello { epd, tag })
}

/// The answer to a request (RFC 7016 section 2.3.4).
#[tactic(auto, using(crate::proofs::Sizes::rhello_length), unfolding(crate::specs::Packets::rhello_packet))]
pub fn rhello_packet(tag: &[u8], cookie: &[u8], cert: &[u8]) -> Outgoing
    requires tag { length tag.now ≤ 128 }
    requires cookie { length cookie.now ≤ 128 }
    requires cert { length cert.now ≤ 80 }
    ensures { result ≡ rhello_packet tag.now cookie.now cert.now }
{
    packet_of(&ChunkView::RHello { tag, cookie, cert })
}

/// Puts an address at the end, for which there is room.
fn put_address(address: &Address, list: &mut Outgoing)
    requires { length list.old + 19 ≤ packet_limit }
    ensures put { list.new ≡ list.old ++ address_bytes address.now }
    ensures spells { AddressSpells address.now (address_bytes address.now) }
    ensures short { length list.new ≤ length list.old + 19 }
{
    let mut spelling = [0; 19];
    let len = write_address(address, &mut spelling);
    list.append(&spelling[..len]);
}

/// Addresses one after another, as they are, behind a byte that isn't one of them.
fn spelled(addresses: &[Address]) -> Outgoing
    requires { length addresses.now ≤ 16 }
    ensures bytes { result ≡ 0 ∷ addresses_bytes addresses.now }
    ensures addresses { AreAddresses (addresses_bytes addresses.now) }
    ensures short { length (addresses_bytes addresses.now) ≤ 304 }
{
    let mut list = Outgoing::new(0);
    for address in addresses {
        put_address(address, &mut list);
    }
    list
}

/// Further addresses of the end that was asked for (RFC 7016 section 2.3.5).
#[tactic(auto, using(crate::proofs::Sizes::redirect_length), unfolding(crate::specs::Packets::redirect_packet))]
pub fn redirect_packet(tag: &[u8], addresses: &[Address]) -> Outgoing
    requires tag { length tag.now ≤ 128 }
    requires few { length addresses.now ≤ 16 }
    ensures { result ≡ redirect_packet tag.now addresses.now }
{
    let list = spelled(addresses);
    let (_, list) = list.bytes().split_at(1);
    packet_of(&ChunkView::Redirect { tag, list })
}

/// A new cookie in place of one that isn't good any more (RFC 7016 section 2.3.6).
#[tactic(auto, using(crate::proofs::Sizes::cookiechange_length), unfolding(crate::specs::Packets::cookiechange_packet))]
pub fn cookiechange_packet(old: &[u8], new: &[u8]) -> Outgoing
    requires old { length old.now ≤ 128 }
    requires new { length new.now ≤ 128 }
    ensures { result ≡ cookiechange_packet old.now new.now }
{
    packet_of(&ChunkView::CookieChange { old, new })
}

/// The initiator's keying (RFC 7016 section 2.3.7), signed under the signature key.
#[tactic(auto, unfolding(crate::specs::Packets::iikeying_signed))]
pub fn iikeying_packet(
    key: &HmacKey,
    near: u32,
    cookie: &[u8],
    cert: &[u8],
    ni: &[u8; 16],
    n: u64,
    peer: &[u8; 32],
) -> Outgoing
    requires cookie { length cookie.now ≤ 128 }
    requires cert { length cert.now ≤ 80 }
    ensures { result ≡ iikeying_signed key.now near cookie.now cert.now ni.now n peer.now }
{
    let part = initiator_part(ni, n, peer);
    let sign = iikeying_signature(key, near, cookie, cert, &part);
    packet_of(&ChunkView::IIKeying {
        near,
        cookie,
        cert,
        part: &part,
        sign: &sign,
    })
}

/// The signature of an initiator's keying with these fields.
fn iikeying_signature(
    key: &HmacKey,
    near: u32,
    cookie: &[u8],
    cert: &[u8],
    part: &[u8; 56],
) -> [u8; 32]
    requires cookie { length cookie.now ≤ 128 }
    requires cert { length cert.now ≤ 80 }
    ensures { result
        ≡ signature_by key.now (payload_bytes (IIKeying near cookie.now cert.now part.now [])) }
{
    let unsigned = packet_of(&ChunkView::IIKeying {
        near,
        cookie,
        cert,
        part,
        sign: &[],
    });
    key.hmac(&unsigned.bytes()[HEAD_LEN..])
}

/// The part of an initiator.
fn initiator_part(ni: &[u8; 16], n: u64, responder: &[u8; 32]) -> [u8; 56]
    ensures { result ≡ initiator_part ni.now n responder.now }
{
    let mut part = [0; 56];
    let (nonce, rest) = part.split_at_mut(16);
    nonce.copy_from_slice(ni);
    let (number, print) = rest.split_at_mut(8);
    number.copy_from_slice(&n.to_be_bytes());
    print.copy_from_slice(responder);
    part
}

/// The responder's keying (RFC 7016 section 2.3.8) with a signature that was made of these fields.
#[tactic(auto, unfolding(crate::specs::Packets::rikeying_signed, crate::specs::Packets::rikeying_with))]
pub fn rikeying_packet(
    near: u32,
    nr: &[u8; 16],
    k: u64,
    own: &[u8; 32],
    ni: &[u8; 16],
    sign: &[u8; 32],
) -> Outgoing
    ensures packet { result ≡ rikeying_with near nr.now k own.now ni.now sign.now }
    ensures signed { (key : List ℕ) →
        sign.now ≡ rikeying_signature key near nr.now k own.now ni.now →
        result ≡ rikeying_signed key near nr.now k own.now ni.now }
{
    let part = responder_part(nr, k, own, ni);
    packet_of(&ChunkView::RIKeying {
        near,
        part: &part,
        sign,
    })
}

/// The signature of a responder's keying with these fields, under the signature key.
pub fn rikeying_signature(
    key: &HmacKey,
    near: u32,
    nr: &[u8; 16],
    k: u64,
    own: &[u8; 32],
    ni: &[u8; 16],
) -> [u8; 32]
    ensures { result ≡ rikeying_signature key.now near nr.now k own.now ni.now }
{
    let part = responder_part(nr, k, own, ni);
    let unsigned = packet_of(&ChunkView::RIKeying {
        near,
        part: &part,
        sign: &[],
    });
    key.hmac(&unsigned.bytes()[HEAD_LEN..])
}

/// The part of a responder.
fn responder_part(nr: &[u8; 16], k: u64, responder: &[u8; 32], ni: &[u8; 16]) -> [u8; 72]
    ensures { result ≡ responder_part nr.now k responder.now ni.now }
{
    let mut part = [0; 72];
    let (nonce, rest) = part.split_at_mut(16);
    nonce.copy_from_slice(nr);
    let (count, rest) = rest.split_at_mut(8);
    count.copy_from_slice(&k.to_be_bytes());
    let (print, initiator) = rest.split_at_mut(32);
    print.copy_from_slice(responder);
    initiator.copy_from_slice(ni);
    part
}
