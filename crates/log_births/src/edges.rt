//! What lets a session be born at the edges. The functions do nothing: the contract of each is a
//! table. A fingerprint and a nonce are short lists of bytes here.

ghost use Rattle.std.specs.Prelude.{◌≡◌, ◌∷◌, ℕ, List, [], replicate, true, false, Some, None};
ghost use Rattle.rtmfp_forms.specs.Address.{AddressParts};
ghost use Rattle.rtmfp_packet.specs.declared.head.Mode.TheVariants.{Initiator, Responder, Startup};
ghost use Rattle.glare_core.specs.declared.facts.Held.TheVariants.{HalfOpen, KeptAsInitiator, KeptAsResponder};
ghost use Rattle.glare_core.specs.declared.facts.Why.TheVariants.{Cancelled, Expired, Glare, Override, Unconfirmed, Near, Far, Idle};
ghost use Rattle.log_births.specs.declared.party.Party.{Party};
ghost use Rattle.log_births.specs.Edges.{attempt, keying, offer, session};
ghost use Rattle.log_births.specs.Offers.{IsCertFor, IsCurrent, is_named, is_startup};
ghost use Rattle.log_births.specs.Rooms.{has_room, is_new, takes_after, yields};
ghost use Rattle.log_births.specs.Ways.{is_for_born};

/// At a limit of 3 the third finds room and a fourth doesn't, but for one that is there already.
/// Where none may be, there is no room for the first.
pub fn a_limit_is_the_most_that_there_may_be()
    ensures last { has_room false 2 3 ≡ true }
    ensures full { has_room false 3 3 ≡ false }
    ensures above { has_room false 4 3 ≡ false }
    ensures there { has_room true 3 3 ≡ true }
    ensures none { has_room false 0 0 ≡ false }
{}

/// A number that was seen of a peer isn't new, and the next one is.
pub fn a_number_that_was_seen_is_not_new()
    ensures seen { is_new 4 4 ≡ false }
    ensures before { is_new 4 3 ≡ false }
    ensures next { is_new 4 5 ≡ true }
    ensures first { is_new 0 1 ≡ true }
    ensures zero { is_new 0 0 ≡ false }
{}

/// An attempt of the end yields where the peer prevails, and a session does always.
pub fn an_attempt_yields_to_a_peer_that_prevails()
    ensures peer_prevails { yields (5 ∷ []) (4 ∷ []) (Some attempt) ≡ true }
    ensures end_prevails { yields (5 ∷ []) (6 ∷ []) (Some attempt) ≡ false }
    ensures same { yields (5 ∷ []) (5 ∷ []) (Some attempt) ≡ false }
    ensures half_open { yields (5 ∷ []) (6 ∷ []) (Some (HalfOpen session)) ≡ true }
    ensures born { yields (5 ∷ []) (6 ∷ []) (Some (KeptAsResponder session)) ≡ true }
    ensures opened { yields (5 ∷ []) (6 ∷ []) (Some (KeptAsInitiator session)) ≡ true }
    ensures nothing { yields (5 ∷ []) (6 ∷ []) None ≡ true }
{}

/// Where nothing made way, and where it was with another peer, nothing before counts.
pub fn an_end_makes_way_for_its_own_peer()
    ensures none { (p : Party) (peer : List ℕ) → takes_after p peer None ≡ false }
    ensures other { (p : Party) (uses : ℕ) → takes_after p (5 ∷ [])
        (Some (record { peer = 6 ∷ []; thing = HalfOpen session; uses = uses })) ≡ false }
{}

/// An end by Glare or by Override makes way, and no other.
pub fn glare_and_override_make_way()
    ensures glare { is_for_born Glare ≡ true }
    ensures replaced { is_for_born Override ≡ true }
    ensures cancelled { is_for_born Cancelled ≡ false }
    ensures expired { is_for_born Expired ≡ false }
    ensures unconfirmed { is_for_born Unconfirmed ≡ false }
    ensures near { is_for_born Near ≡ false }
    ensures far { is_for_born Far ≡ false }
    ensures idle { is_for_born Idle ≡ false }
{}

/// A keying has the session ID of its offer, which isn't 0, and the component of it.
pub fn a_keying_has_the_values_of_its_offer()
    ensures same { is_named (4 ∷ []) (offer 2 9) (keying 9 2 (4 ∷ [])) ≡ true }
    ensures other_id { is_named (4 ∷ []) (offer 2 9) (keying 8 2 (4 ∷ [])) ≡ false }
    ensures zero { is_named (4 ∷ []) (offer 2 0) (keying 0 2 (4 ∷ [])) ≡ false }
    ensures before { is_named (4 ∷ []) (offer 2 9) (keying 9 1 (4 ∷ [])) ≡ false }
    ensures next { is_named (4 ∷ []) (offer 2 9) (keying 9 3 (4 ∷ [])) ≡ false }
    ensures other_end { is_named (4 ∷ []) (offer 2 9) (keying 9 2 (6 ∷ [])) ≡ false }
{}

/// Packets of startup alone make offers.
pub fn packets_of_startup_make_offers()
    ensures startup { is_startup Startup ≡ true }
    ensures initiator { is_startup Initiator ≡ false }
    ensures responder { is_startup Responder ≡ false }
{}

/// The end's own certificate is that of no peer, and a cookie of 129 bytes is too long.
pub fn the_own_certificate_and_a_long_cookie_are_refused()
    ensures own { (peer cert : List ℕ) → IsCertFor cert peer cert → ⊥ }
    ensures long { (secret : List ℕ) (from : AddressParts) (now : ℕ) →
        IsCurrent secret (replicate 129 0) from now → ⊥ }
{}
