//! The parts and the fields of keyings at their edges and one beside. The functions do nothing: the
//! contract of each states what the definitions that the other contracts cite are there. All numbers
//! are own.

ghost use Rattle.std.specs.Prelude.{◌≡◌, ◌∷◌, ◌++◌, ◌+◌, ℕ, List, [], Some, None, Err, length, replicate};
ghost use Rattle.rtmfp_base.specs.declared.cause.Cause.TheVariants.{Malformed};
ghost use Rattle.startup_packets.specs.Packets.{initiator_part, initiator_part_in, responder_part, responder_part_in};
ghost use Rattle.startup_packets.specs.Readings.{cert_offset, formed_initiator, formed_responder};

/// The part of an initiator has 56 bytes: its nonce, the number of its attempt and the fingerprint
/// of the end that it calls.
#[tactic(auto, unfolding(crate::specs::Packets::initiator_part_in))]
pub fn a_part_of_an_initiator_has_56_bytes()
    ensures fields { initiator_part_in (replicate 16 1 ++ replicate 7 0 ++ 2 ∷ replicate 32 3)
        ≡ Some (record { ni = replicate 16 1; n = 2; responder = replicate 32 3 }) }
    ensures short { initiator_part_in (replicate 55 1) ≡ None }
    ensures long { initiator_part_in (replicate 57 1) ≡ None }
    ensures spelled { initiator_part (replicate 16 1) 2 (replicate 32 3) ≡ replicate 16 1
        ++ replicate 7 0 ++ 2 ∷ replicate 32 3 }
{}

/// The part of a responder has 72 bytes: its nonce, the count of its attempts, its fingerprint and
/// the initiator's nonce.
#[tactic(auto, unfolding(crate::specs::Packets::responder_part_in))]
pub fn a_part_of_a_responder_has_72_bytes()
    ensures fields { responder_part_in (replicate 16 1 ++ replicate 7 0 ++ 2 ∷ replicate 32 3
        ++ replicate 16 4)
        ≡ Some (record {
          nr = replicate 16 1;
          k = 2;
          responder = replicate 32 3;
          ni = replicate 16 4;
        }) }
    ensures short { responder_part_in (replicate 71 1) ≡ None }
    ensures long { responder_part_in (replicate 73 1) ≡ None }
    ensures spelled { responder_part (replicate 16 1) 2 (replicate 32 3) (replicate 16 4)
        ≡ replicate 16 1 ++ replicate 7 0 ++ 2 ∷ replicate 32 3 ++ replicate 16 4 }
{}

/// A keying's form is told in the order of its fields: a session ID of 0, then the certificate,
/// then the part, which stands before the signature at the end.
pub fn the_first_field_without_its_form_is_told()
    ensures id { (payload cookie cert part sign : List ℕ) →
        formed_initiator payload 0 cookie cert part sign ≡ Err (Malformed 0) }
    ensures certificate { (payload cookie part sign : List ℕ) →
        formed_initiator payload 1 cookie (replicate 16 0x61) part sign
        ≡ Err (Malformed (cert_offset payload (length cookie))) }
    ensures part { (cookie : List ℕ) → initiator_part_in (replicate 55 1) ≡ None →
        formed_initiator (replicate 200 0) 1 cookie (replicate 17 0x61) (replicate 55 1)
        (replicate 32 2) ≡ Err (Malformed 113) }
    ensures responder_id { (payload part sign : List ℕ) →
        formed_responder payload 0 part sign ≡ Err (Malformed 0) }
    ensures responder_part { responder_part_in (replicate 71 1) ≡ None →
        formed_responder (replicate 200 0) 1 (replicate 71 1) (replicate 32 2)
        ≡ Err (Malformed 97) }
{}
