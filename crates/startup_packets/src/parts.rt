//! The parts of the session key that the two ends send in their keyings, and the signatures of
//! keyings (own profile).

ghost use Rattle.std.specs.Prelude.{◌≡◌, IfSome};
ghost use Rattle.startup_packets.specs.Packets.{initiator_part, responder_part, initiator_part_in, responder_part_in, is_signed_by};

use crypto_profile::{HmacKey, same_bytes};

/// What the part of an initiator says.
#[derive(Clone, Copy, Debug, PartialEq, Eq)]
pub struct InitiatorPart {
    /// The initiator's nonce.
    pub ni: [u8; 16],
    /// The number of its attempt.
    pub n: u64,
    /// The fingerprint of the end that it calls.
    pub responder: [u8; 32],
}

/// What the part of a responder says.
#[derive(Clone, Copy, Debug, PartialEq, Eq)]
pub struct ResponderPart {
    /// The responder's nonce.
    pub nr: [u8; 16],
    /// How many attempts it had started.
    pub k: u64,
    /// Its fingerprint.
    pub responder: [u8; 32],
    /// The initiator's nonce.
    pub ni: [u8; 16],
}

/// What these bytes say as the part of an initiator; None exactly where there aren't 56.
#[tactic(auto, unfolding(crate::specs::Packets::initiator_part_in))]
pub(crate) fn read_initiator_part(bytes: &[u8]) -> Option<InitiatorPart>
    ensures value { result ≡ initiator_part_in bytes.now }
    ensures spelled { IfSome result (λ part. bytes.now
        ≡ initiator_part part.ni part.n part.responder) }
{
    if bytes.len() != 56 {
        return None;
    }
    let mut ni = [0; 16];
    ni.copy_from_slice(&bytes[..16]);
    let mut n = [0; 8];
    n.copy_from_slice(&bytes[16..24]);
    let mut responder = [0; 32];
    responder.copy_from_slice(&bytes[24..]);
    Some(InitiatorPart {
        ni,
        n: u64::from_be_bytes(n),
        responder,
    })
}

/// What these bytes say as the part of a responder; None exactly where there aren't 72.
#[tactic(auto, unfolding(crate::specs::Packets::responder_part_in))]
pub(crate) fn read_responder_part(bytes: &[u8]) -> Option<ResponderPart>
    ensures value { result ≡ responder_part_in bytes.now }
    ensures spelled { IfSome result (λ part. bytes.now
        ≡ responder_part part.nr part.k part.responder part.ni) }
{
    if bytes.len() != 72 {
        return None;
    }
    let mut nr = [0; 16];
    nr.copy_from_slice(&bytes[..16]);
    let mut k = [0; 8];
    k.copy_from_slice(&bytes[16..24]);
    let mut responder = [0; 32];
    responder.copy_from_slice(&bytes[24..56]);
    let mut ni = [0; 16];
    ni.copy_from_slice(&bytes[56..]);
    Some(ResponderPart {
        nr,
        k: u64::from_be_bytes(k),
        responder,
        ni,
    })
}

/// Whether the signature that a payload ends with is right under the signature key. It is compared
/// in constant time.
#[tactic(auto, unfolding(crate::specs::Packets::is_signed_by))]
pub fn is_signed(key: &HmacKey, payload: &[u8], sign: &[u8]) -> bool
    ensures { result ≡ is_signed_by key.now payload.now sign.now }
{
    let before = payload.len().saturating_sub(sign.len());
    same_bytes(&key.hmac(&payload[..before]), sign)
}
