//! The edges of what opens, and of what chunks say. The functions do nothing: the contract of each
//! states what the definitions that the other contracts cite are there.

ghost use Rattle.std.specs.Prelude.{◌≡◌, ◌≢◌, ◌∷◌, ◌++◌, ℕ, List, [], replicate, true, false};
ghost use Rattle.std.specs.Prelude.{Some, None, Ok, Err};
ghost use Rattle.sha2.specs.Sha256.{sha256};
ghost use Rattle.crypto_profile.specs.declared.keys.Context.{Context};
ghost use Rattle.crypto_profile.specs.declared.keys.Context.TheVariants.{Startup};
ghost use Rattle.rtmfp_chunks.specs.Chunk.{IIKeying, RIKeying, RHello};
ghost use Rattle.rtmfp_chunks.specs.declared.reading.ChunkFault.TheVariants.{Unknown};
ghost use Rattle.endpoint_laws.specs.Contexts.{Secrets, OpensUnder, OpensFirst};
ghost use Rattle.log_packets.specs.Asked.{first_of, hello_of, initiator_of, responder_of, IsFrom};
ghost use Rattle.log_packets.specs.Edges.{chunk, long, towards};
ghost use Rattle.log_packets.specs.Opening.{fits, is_sid, sid_in, startup_of};
ghost use Rattle.log_packets.specs.Secrets.{added_to, may_have};

/// The first secret of a number counts.
pub fn the_first_secret_of_a_number_counts()
    ensures unknown { may_have None (1 ∷ []) ≡ true }
    ensures same { may_have (Some (1 ∷ [])) (1 ∷ []) ≡ true }
    ensures other { may_have (Some (1 ∷ [])) (2 ∷ []) ≡ false }
    ensures stays { (secrets : Secrets) → added_to (Some (1 ∷ [])) 7 (2 ∷ []) secrets ≡ secrets }
{}

/// A datagram has 36 bytes or more: its session ID, a tag and a number. One of 35 has no session
/// ID, and opens nowhere.
pub fn a_datagram_of_35_bytes_opens_nowhere()
    ensures shorter { sid_in (long 35) ≡ None }
    ensures least { sid_in (long 36) ≡ Some 0x09090909 }
    ensures nowhere { (secrets : Secrets) (context : Context) (sid : ℕ) (plain : List ℕ) →
        OpensUnder secrets context sid (long 35) plain → ⊥ }
    ensures none { is_sid None 0 ≡ false }
    ensures it { is_sid (Some 7) 7 ≡ true }
    ensures another { is_sid (Some 7) 8 ≡ false }
{}

/// A datagram that opens in both generations is in the current one.
pub fn the_current_generation_comes_first()
    ensures current { (secrets : Secrets) (bytes plain : List ℕ) →
        OpensUnder secrets (Startup 7) 0 bytes plain →
        OpensFirst secrets (startup_of 7 (Some 8)) 0 bytes (Startup 7) plain }
    ensures not_next { (secrets : Secrets) (bytes plain other : List ℕ) →
        OpensUnder secrets (Startup 7) 0 bytes plain →
        OpensFirst secrets (startup_of 7 (Some 8)) 0 bytes (Startup 8) other → ⊥ }
    ensures unknown { (secrets : Secrets) (bytes other : List ℕ) →
        OpensFirst secrets (startup_of 7 None) 0 bytes (Startup 8) other → ⊥ }
{}

/// The number of a session's packet begins with 8 zero bytes; that of startup is any.
pub fn numbers_of_sessions_begin_with_8_zeros()
    ensures eight { fits (towards true) (replicate 8 0 ++ replicate 8 1) ≡ true }
    ensures eighth { fits (towards true) (replicate 7 0 ++ replicate 9 1) ≡ false }
    ensures first { fits (towards false) (1 ∷ replicate 15 0) ≡ false }
    ensures startup { fits (Startup 7) (replicate 16 1) ≡ true }
{}

/// The first chunk of a type is the one that counts, though a later one has the type too.
pub fn the_first_of_a_type_counts()
    ensures first { first_of 0x38 (chunk 0x38 (1 ∷ []) ∷ chunk 0x38 (2 ∷ []) ∷ [])
        ≡ Some (chunk 0x38 (1 ∷ [])) }
    ensures behind { first_of 0x38 (chunk 0x78 (1 ∷ []) ∷ chunk 0x38 (2 ∷ []) ∷ [])
        ≡ Some (chunk 0x38 (2 ∷ [])) }
    ensures close { first_of 0x0c (chunk 0x4c [] ∷ []) ≡ None }
    ensures answer { first_of 0x4c (chunk 0x0c [] ∷ []) ≡ None }
    ensures empty { first_of 0x0c [] ≡ None }
{}

/// Which chunks are keyings and hellos.
pub fn keyings_and_hellos_are_apart()
    ensures hello { hello_of (Ok (RHello (1 ∷ []) (2 ∷ []) (3 ∷ [])))
        ≡ Some (record { tag = 1 ∷ []; cookie = 2 ∷ []; cert = 3 ∷ [] }) }
    ensures no_hello { hello_of (Ok (RIKeying 5 (1 ∷ []) (2 ∷ []))) ≡ None }
    ensures initiator { initiator_of (Ok (IIKeying 5 (1 ∷ []) (2 ∷ []) (3 ∷ []) (4 ∷ [])))
        ≡ Some (record {
          near = 5;
          cookie = 1 ∷ [];
          cert = 2 ∷ [];
          part = 3 ∷ [];
          sign = 4 ∷ [];
        }) }
    ensures no_initiator { initiator_of (Ok (RIKeying 5 (1 ∷ []) (2 ∷ []))) ≡ None }
    ensures responder { responder_of (Ok (RIKeying 5 (1 ∷ []) (2 ∷ [])))
        ≡ Some (record { near = 5; part = 1 ∷ []; sign = 2 ∷ [] }) }
    ensures no_responder { responder_of (Ok (IIKeying 5 (1 ∷ []) (2 ∷ []) (3 ∷ []) (4 ∷ [])))
        ≡ None }
    ensures unread { responder_of (Err (Unknown 9)) ≡ None }
{}

/// An attempt takes a hello with a cookie of 128 bytes and none with one of 129, and with a
/// certificate of 17 to 80 bytes, 16 of them before its name: that of its peer.
pub fn an_attempt_takes_the_hellos_of_its_peer()
    ensures least { IsFrom (sha256 (long 17)) (long 128) (long 17) }
    ensures most { IsFrom (sha256 (long 80)) [] (long 80) }
    ensures wide { (peer cert : List ℕ) → IsFrom peer (long 129) cert → ⊥ }
    ensures nameless { (peer cookie : List ℕ) → IsFrom peer cookie (long 16) → ⊥ }
    ensures long_named { (peer cookie : List ℕ) → IsFrom peer cookie (long 81) → ⊥ }
    ensures another { (peer : List ℕ) → peer ≢ sha256 (long 17) → IsFrom peer [] (long 17) → ⊥ }
{}
