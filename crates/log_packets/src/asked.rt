//! What is asked of the chunks of a packet. Each question is one walk over them.

ghost use Rattle.std.specs.Prelude.{◌≡◌, IfOk};
ghost use Rattle.std.specs.Option.{option_map};
ghost use Rattle.rtmfp_packet.specs.Chunks.{left, shown};
ghost use Rattle.rtmfp_chunks.specs.Chunk.{Close as CloseChunk, CloseAck};
ghost use Rattle.endpoint_model.specs.Keying.{chunks_of, responder_part};
ghost use Rattle.log_packets.specs.Asked.{first_of, AreKeyingsOf, IsAnswer, IsCertOf, IsChunk};
ghost use Rattle.log_packets.specs.Asked.{IsFirstFound, IsFrom, IsHelloFrom, IsHelloOf, SomeChunk};
ghost use Rattle.log_packets.specs.Asked.{Tells};

use crate::fields::{InitiatorKeying, hello_in, initiator_in, responder_in};
use crypto_profile::Generation;
use glare_core::Joined;
use identity::Certificate;
use rtmfp_base::Memory;
use rtmfp_chunks::kinds::{CLOSE, CLOSE_ACK, IIKEYING};
use rtmfp_packet::{Chunks, Packet, RawChunk};
use startup_packets::is_signed;
use std::alloc::Global;

/// The longest cookie that an attempt takes, in bytes (own).
const COOKIE_LIMIT: usize = 128;

/// The first chunk of this type.
fn first_of<'a>(mut chunks: Chunks<'a>, kind: u8) -> Option<RawChunk<'a>>
    ensures { option_map shown result ≡ first_of kind (left chunks.entry) }
{
    while let Some(chunk) = chunks.next() {
        if chunk.kind == kind {
            return Some(chunk);
        }
    }
    None
}

/// Whether a packet has a session close (RFC 7016 section 2.3.17).
pub fn has_close(packet: &Packet<'_>) -> bool
    ensures { Tells (SomeChunk (IsChunk CloseChunk) (chunks_of packet.now)) result }
{
    first_of(packet.chunks(), CLOSE).is_some()
}

/// Whether a packet has the answer to a session close (RFC 7016 section 2.3.18).
pub fn has_close_ack(packet: &Packet<'_>) -> bool
    ensures { Tells (SomeChunk (IsChunk CloseAck) (chunks_of packet.now)) result }
{
    first_of(packet.chunks(), CLOSE_ACK).is_some()
}

/// The first chunk of a packet that has the type of an initiator's keying, where it reads as one.
pub fn first_initiator<'a>(packet: &Packet<'a>) -> Option<InitiatorKeying<'a>>
    ensures { IsFirstFound (chunks_of packet.now) result }
{
    match first_of(packet.chunks(), IIKEYING) {
        Some(chunk) => initiator_in(chunk.kind, chunk.payload),
        None => None,
    }
}

/// The session IDs of the initiators' keyings of a packet, in order. Where there is none it takes
/// no memory.
pub fn keyings(packet: &Packet<'_>, alloc: Global) -> Result<Vec<u32>, Memory>
    ensures { IfOk result (λ ids. AreKeyingsOf (chunks_of packet.now) ids.items) }
{
    let mut chunks = packet.chunks();
    let mut ids = Vec::new(alloc);
    while let Some(chunk) = chunks.next() {
        if let Some(keying) = initiator_in(chunk.kind, chunk.payload) {
            if ids.push(keying.near).is_err() {
                return Err(Memory);
            }
        }
    }
    Ok(ids)
}

fn is_from(cookie: &[u8], cert: &[u8], peer: &[u8; 32]) -> bool
    ensures { Tells (IsFrom peer.now cookie.now cert.now) result }
{
    if cookie.len() > COOKIE_LIMIT {
        return false;
    }
    match Certificate::read(cert) {
        Ok(cert) => cert.print() == *peer,
        Err(_) => false,
    }
}

fn is_hello_from(chunk: &RawChunk<'_>, tag: &[u8], peer: &[u8; 32]) -> bool
    ensures { Tells (IsHelloFrom tag.now peer.now (shown chunk.now)) result }
{
    match hello_in(chunk.kind, chunk.payload) {
        Some(hello) => hello.tag == tag && is_from(hello.cookie, hello.cert, peer),
        None => false,
    }
}

/// Whether a packet has a responder's hello that an attempt with this tag and this peer takes: its
/// cookie has at most 128 bytes (own), and its certificate has the peer's fingerprint.
pub fn hello_from(packet: &Packet<'_>, tag: &[u8], peer: &[u8; 32]) -> bool
    ensures { Tells (SomeChunk (IsHelloFrom tag.now peer.now) (chunks_of packet.now)) result }
{
    let mut chunks = packet.chunks();
    while let Some(chunk) = chunks.next() {
        if is_hello_from(&chunk, tag, peer) {
            return true;
        }
    }
    false
}

fn is_cert_of(cert: &[u8], name: &[u8], peer: &[u8; 32]) -> bool
    ensures { Tells (IsCertOf name.now peer.now cert.now) result }
{
    match Certificate::read(cert) {
        Ok(cert) => cert.name() == name && cert.print() == *peer,
        Err(_) => false,
    }
}

fn is_hello_of(chunk: &RawChunk<'_>, tag: &[u8], name: &[u8], peer: &[u8; 32]) -> bool
    ensures { Tells (IsHelloOf tag.now name.now peer.now (shown chunk.now)) result }
{
    match hello_in(chunk.kind, chunk.payload) {
        Some(hello) => hello.tag == tag && is_cert_of(hello.cert, name, peer),
        None => false,
    }
}

/// Whether a packet has a responder's hello with this tag, and with a certificate that has this
/// name and this fingerprint.
pub fn hello_of(packet: &Packet<'_>, tag: &[u8], name: &[u8], peer: &[u8; 32]) -> bool
    ensures { Tells (SomeChunk (IsHelloOf tag.now name.now peer.now) (chunks_of packet.now))
        result }
{
    let mut chunks = packet.chunks();
    while let Some(chunk) = chunks.next() {
        if is_hello_of(&chunk, tag, name, peer) {
            return true;
        }
    }
    false
}

/// The responder's component of the key of a session.
fn responder_part(j: &Joined) -> [u8; 72]
    ensures { result ≡ responder_part j.now.nr j.now.k j.now.peer j.now.ni }
{
    let mut part = [0; 72];
    let (nonce, rest) = part.split_at_mut(16);
    nonce.copy_from_slice(&j.nr);
    let (count, rest) = rest.split_at_mut(8);
    count.copy_from_slice(&j.k.to_be_bytes());
    let (print, far_nonce) = rest.split_at_mut(32);
    print.copy_from_slice(&j.peer);
    far_nonce.copy_from_slice(&j.ni);
    part
}

fn is_answer(chunk: &RawChunk<'_>, j: &Joined, part: &[u8; 72], under: &Generation) -> bool
    requires { part.now ≡ responder_part j.now.nr j.now.k j.now.peer j.now.ni }
    ensures { Tells (IsAnswer under.now.secret j.now (shown chunk.now)) result }
{
    let Some(keying) = responder_in(chunk.kind, chunk.payload) else {
        return false;
    };
    if keying.near != j.far {
        return false;
    }
    if keying.part != part.as_slice() {
        return false;
    }
    is_signed(under.sign(), chunk.payload, keying.sign)
}

/// Whether a packet has a responder's keying with the values of this session, from its initiator's
/// side, signed under this secret.
pub fn answers(packet: &Packet<'_>, j: &Joined, under: &Generation) -> bool
    ensures { Tells (SomeChunk (IsAnswer under.now.secret j.now) (chunks_of packet.now)) result }
{
    let part = responder_part(j);
    let mut chunks = packet.chunks();
    while let Some(chunk) = chunks.next() {
        if is_answer(&chunk, j, &part, under) {
            return true;
        }
    }
    false
}
