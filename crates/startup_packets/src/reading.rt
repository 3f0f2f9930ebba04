//! Keyings read from their payloads (RFC 7016 sections 2.3.7 and 2.3.8, with the own form of what
//! they carry).

ghost use Rattle.std.specs.Prelude.{◌≡◌, ◌≤◌, IfOk, length, max};
ghost use Rattle.startup_packets.specs.Readings.{behind_vlu, cert_offset, part_offset, fault_cause};
ghost use Rattle.startup_packets.specs.Readings.{initiator_keying_in, formed_initiator, responder_keying_in};
ghost use Rattle.startup_packets.specs.Readings.{formed_responder};
ghost use Rattle.startup_packets.specs.Read.{initiator_read, responder_read};

use crate::parts::{InitiatorPart, ResponderPart, read_initiator_part, read_responder_part};
use identity::Certificate;
use rtmfp_base::Cause;
use rtmfp_chunks::kinds::{IIKEYING, RIKEYING};
use rtmfp_chunks::{ChunkFault, ChunkView, read_chunk};
use rtmfp_vlu::read_vlu;

/// The bytes of a session ID.
const ID_LEN: usize = 4;

/// What an initiator's keying says.
#[derive(Drop)]
pub struct InitiatorFields<'a> {
    /// The whole payload, which ends with the signature.
    pub payload: &'a [u8],
    /// The initiator's session ID.
    pub near: u32,
    /// The cookie that it was given.
    pub cookie: &'a [u8],
    /// The initiator's certificate.
    pub cert: Certificate,
    /// Its part of the session key.
    pub part: InitiatorPart,
    /// The signature of what stands before it.
    pub sign: &'a [u8],
}

/// What a responder's keying says.
#[derive(Drop)]
pub struct ResponderFields<'a> {
    /// The whole payload, which ends with the signature.
    pub payload: &'a [u8],
    /// The responder's session ID.
    pub near: u32,
    /// Its part of the session key.
    pub part: ResponderPart,
    /// The signature of what stands before it.
    pub sign: &'a [u8],
}

/// The cause of a chunk that can't be read.
pub fn fault_cause(fault: ChunkFault) -> Cause
    ensures { result ≡ fault_cause fault }
{
    match fault {
        ChunkFault::Unknown(kind) => Cause::UnknownChunk(kind),
        ChunkFault::Malformed(at) => Cause::Malformed(at as u64),
    }
}

/// The offset of what stands behind the VLU at this offset.
fn behind_vlu(payload: &[u8], at: usize) -> usize
    ensures value { result ≡ behind_vlu payload.now at }
    ensures within { result ≤ max at (length payload.now) }
{
    if at > payload.len() {
        return at;
    }
    match read_vlu(&payload[at..]) {
        Ok((_, used)) => at + used,
        Err(_) => at,
    }
}

/// The offset of the certificate in an initiator's keying.
#[tactic(auto, unfolding(crate::specs::Readings::cert_offset))]
fn cert_offset(payload: &[u8], cookie: &[u8]) -> u64
    ensures { result ≡ cert_offset payload.now (length cookie.now) }
{
    let cookie_at = behind_vlu(payload, ID_LEN);
    behind_vlu(payload, cookie_at + cookie.len()) as u64
}

/// The offset of the part, which stands before the signature.
fn part_offset(payload: &[u8], part: &[u8], sign: &[u8]) -> u64
    ensures { result ≡ part_offset payload.now part.now sign.now }
{
    payload
        .len()
        .saturating_sub(sign.len())
        .saturating_sub(part.len()) as u64
}

/// Reads an initiator's keying, whose certificate and part have their form.
#[tactic(auto, unfolding(crate::specs::Readings::initiator_keying_in))]
pub fn read_initiator_keying(payload: &[u8]) -> Result<InitiatorFields<'_>, Cause>
    ensures fields { initiator_read result ≡ initiator_keying_in payload.now }
    ensures payload { IfOk result (λ fields. fields.payload.now ≡ payload.now) }
{
    match read_chunk(IIKEYING, payload) {
        Ok(
            ChunkView::IIKeying {
                near,
                cookie,
                cert,
                part,
                sign,
            },
        ) => formed_initiator(payload, near, cookie, cert, part, sign),
        Ok(_) => Err(Cause::UnknownChunk(IIKEYING)),
        Err(fault) => Err(fault_cause(fault)),
    }
}

/// The fields of an initiator's keying, where each has its form.
fn formed_initiator<'a>(
    payload: &'a [u8],
    near: u32,
    cookie: &'a [u8],
    cert: &[u8],
    part: &[u8],
    sign: &'a [u8],
) -> Result<InitiatorFields<'a>, Cause>
    ensures fields { initiator_read result
        ≡ formed_initiator payload.now near cookie.now cert.now part.now sign.now }
    ensures payload { IfOk result (λ fields. fields.payload.now ≡ payload.now) }
{
    if near == 0 {
        return Err(Cause::Malformed(0));
    }
    let cert = match Certificate::read(cert) {
        Ok(cert) => cert,
        Err(_) => return Err(Cause::Malformed(cert_offset(payload, cookie))),
    };
    match read_initiator_part(part) {
        Some(part) => Ok(InitiatorFields {
            payload,
            near,
            cookie,
            cert,
            part,
            sign,
        }),
        None => Err(Cause::Malformed(part_offset(payload, part, sign))),
    }
}

/// Reads a responder's keying, whose part has its form.
#[tactic(auto, unfolding(crate::specs::Readings::responder_keying_in))]
pub fn read_responder_keying(payload: &[u8]) -> Result<ResponderFields<'_>, Cause>
    ensures fields { responder_read result ≡ responder_keying_in payload.now }
    ensures payload { IfOk result (λ fields. fields.payload.now ≡ payload.now) }
{
    match read_chunk(RIKEYING, payload) {
        Ok(ChunkView::RIKeying { near, part, sign }) => formed_responder(payload, near, part, sign),
        Ok(_) => Err(Cause::UnknownChunk(RIKEYING)),
        Err(fault) => Err(fault_cause(fault)),
    }
}

/// The fields of a responder's keying, where each has its form.
fn formed_responder<'a>(
    payload: &'a [u8],
    near: u32,
    part: &[u8],
    sign: &'a [u8],
) -> Result<ResponderFields<'a>, Cause>
    ensures fields { responder_read result ≡ formed_responder payload.now near part.now sign.now }
    ensures payload { IfOk result (λ fields. fields.payload.now ≡ payload.now) }
{
    if near == 0 {
        return Err(Cause::Malformed(0));
    }
    match read_responder_part(part) {
        Some(part) => Ok(ResponderFields {
            payload,
            near,
            part,
            sign,
        }),
        None => Err(Cause::Malformed(part_offset(payload, part, sign))),
    }
}
