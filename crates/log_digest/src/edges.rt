//! What entries change under session IDs, for each cause of an end, which numbers are the same, and
//! which generations are known. The functions do nothing: the contract of each is a table. A
//! fingerprint is a short list of bytes here.

ghost use Rattle.std.specs.Prelude.{◌≡◌, ◌∷◌, ℕ, [], true, false, Some, None, replicate};
ghost use Rattle.crypto_profile.specs.declared.keys.Context.TheVariants.{Startup};
ghost use Rattle.glare_core.specs.declared.facts.Fact.TheVariants.{Started, Born, Opened, Confirmed, Ended};
ghost use Rattle.glare_core.specs.declared.facts.Held.TheVariants.{Opening, HalfOpen, KeptAsResponder, KeptAsInitiator};
ghost use Rattle.glare_core.specs.declared.facts.Why.TheVariants.{Cancelled, Expired, Glare, Override, Unconfirmed, Near, Far, Idle};
ghost use Rattle.log_digest.specs.declared.spot.Change.TheVariants.{Stays, Puts, Takes};
ghost use Rattle.log_digest.specs.declared.spot.Spot.TheVariants.{Searching, Holding, Closing};
ghost use Rattle.log_digest.specs.Changes.{fact_change, over_change, sought_change};
ghost use Rattle.log_digest.specs.Generations.{begun_in, succeeded};
ghost use Rattle.log_digest.specs.Numbers.{is_same_stamp, number_in, stamp_of};
ghost use Rattle.log_digest.specs.Edges.{long, session, towards};

/// What begins stands under its session ID since now, a session that is opened here too; one that
/// is confirmed goes on as it began.
pub fn what_begins_stands_since_now()
    ensures started { fact_change 9 None (Started (5 ∷ []) 2 3 (7 ∷ []))
        ≡ Puts 3 (Holding (5 ∷ []) 9) }
    ensures born { fact_change 9 None (Born session) ≡ Puts 3 (Holding (5 ∷ []) 9) }
    ensures opened { fact_change 9 (Some (Opening 2 3 (7 ∷ []))) (Opened session)
        ≡ Puts 3 (Holding (5 ∷ []) 9) }
    ensures confirmed { fact_change 9 (Some (HalfOpen session)) (Confirmed (5 ∷ []) 3) ≡ Stays }
{}

/// A session closes where this end or the peer closed it, as what it was; after each other end its
/// session ID is free.
pub fn what_ends_closes_or_is_gone()
    ensures near { fact_change 9 (Some (HalfOpen session)) (Ended (5 ∷ []) 3 Near)
        ≡ Puts 3 (Closing (HalfOpen session) 9) }
    ensures far { fact_change 9 (Some (KeptAsInitiator session)) (Ended (5 ∷ []) 3 Far)
        ≡ Puts 3 (Closing (KeptAsInitiator session) 9) }
    ensures nothing { fact_change 9 None (Ended (5 ∷ []) 3 Far) ≡ Stays }
    ensures cancelled { fact_change 9 (Some (Opening 2 3 [])) (Ended (5 ∷ []) 3 Cancelled)
        ≡ Takes 3 }
    ensures expired { fact_change 9 (Some (Opening 2 3 [])) (Ended (5 ∷ []) 3 Expired) ≡ Takes 3 }
    ensures glare { fact_change 9 (Some (Opening 2 3 [])) (Ended (5 ∷ []) 3 Glare) ≡ Takes 3 }
    ensures replaced { fact_change 9 (Some (KeptAsResponder session)) (Ended (5 ∷ []) 3 Override)
        ≡ Takes 3 }
    ensures unconfirmed { fact_change 9 (Some (HalfOpen session)) (Ended (5 ∷ []) 3 Unconfirmed)
        ≡ Takes 3 }
    ensures idle { fact_change 9 (Some (KeptAsResponder session)) (Ended (5 ∷ []) 3 Idle)
        ≡ Takes 3 }
{}

/// A search stands with what its seek drew; where the call drew nothing, there is none. It is gone
/// once it is over, as a session is that was closing.
pub fn a_search_stands_with_what_was_drawn()
    ensures drawn { sought_change 9 (Some (record { tag = 1 ∷ []; ni = 2 ∷ [] }))
        (record { near = 3; name = 65 ∷ [] }) ≡ Puts 3 (Searching (65 ∷ []) (1 ∷ []) (2 ∷ []) 9) }
    ensures undrawn { sought_change 9 None (record { near = 3; name = 65 ∷ [] }) ≡ Stays }
    ensures over { over_change None (Some (record { near = 3; why = Expired })) ≡ Takes 3 }
    ensures closed { over_change (Some 3) None ≡ Takes 3 }
    ensures neither { over_change None None ≡ Stays }
{}

/// Which numbers are the same: in one context, in its two directions, in startup of two
/// generations, and in a session beside startup.
pub fn numbers_are_the_same_in_one_context_alone()
    ensures same { is_same_stamp (stamp_of (towards true) (1 ∷ []))
        (stamp_of (towards true) (1 ∷ [])) ≡ true }
    ensures other { is_same_stamp (stamp_of (towards true) (1 ∷ []))
        (stamp_of (towards true) (2 ∷ [])) ≡ false }
    ensures direction { is_same_stamp (stamp_of (towards true) (1 ∷ []))
        (stamp_of (towards false) (1 ∷ [])) ≡ false }
    ensures startup { is_same_stamp (stamp_of (Startup 0) (1 ∷ [])) (stamp_of (Startup 0) (1 ∷ []))
        ≡ true }
    ensures generation { is_same_stamp (stamp_of (Startup 0) (1 ∷ []))
        (stamp_of (Startup 1) (1 ∷ [])) ≡ false }
    ensures beside { is_same_stamp (stamp_of (Startup 0) (1 ∷ []))
        (stamp_of (towards false) (1 ∷ [])) ≡ false }
{}

/// The number of a datagram: one of 35 bytes is too short for it.
pub fn a_number_needs_36_bytes()
    ensures shorter { number_in (long 35) ≡ None }
    ensures least { number_in (long 36) ≡ Some (replicate 16 9) }
{}

/// An end knows no next generation at first, and one from its Learnt to the Advanced of its number.
pub fn a_generation_is_next_until_it_is_current()
    ensures first { begun_in 7 ≡ record { current = 7; next = None } }
    ensures learnt { succeeded (Some 8) None (begun_in 7) ≡ record { current = 7; next = Some 8 } }
    ensures advanced { succeeded None (Some 8) (record { current = 7; next = Some 8 })
        ≡ begun_in 8 }
    ensures other { succeeded None (Some 8) (record { current = 7; next = Some 9 })
        ≡ record { current = 8; next = Some 9 } }
    ensures neither { succeeded None None (record { current = 7; next = Some 8 })
        ≡ record { current = 7; next = Some 8 } }
{}
