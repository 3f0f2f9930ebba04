//! In which context a datagram opens, at the edges of each rule. The functions do nothing: the
//! contract of each is a table. A fingerprint is a byte here, and the generation 4 is the current
//! one.

ghost use Rattle.std.specs.Prelude.{◌≡◌, ◌∷◌, ◌++◌, ◌^◌, ℕ, List, [], true, false, Some, None, replicate};
ghost use Rattle.crypto_profile.specs.declared.keys.Context.{Context};
ghost use Rattle.crypto_profile.specs.declared.keys.Context.TheVariants.{Startup, Session};
ghost use Rattle.glare_core.specs.declared.facts.Held.TheVariants.{Opening, HalfOpen, KeptAsResponder, KeptAsInitiator};
ghost use Rattle.fact_digest.specs.Roll.{no_facts};
ghost use Rattle.endpoint_laws.specs.Contexts.{Secrets};
ghost use Rattle.endpoint_laws.specs.Taken.{count_in};
ghost use Rattle.log_digest.specs.declared.spot.Spot.TheVariants.{Searching, Closing};
ghost use Rattle.log_digest.specs.Kept.{Digested};
ghost use Rattle.log_values.specs.declared.log.LoggedCall.TheVariants.{Open, Receive, Tick, Other};
ghost use Rattle.log_contexts.specs.Kept.{KeptContexts};
ghost use Rattle.log_contexts.specs.Taking.{held_in, spot_in, taking_at};
ghost use Rattle.log_arrivals.specs.declared.arrival.Arrival.TheVariants.{Nowhere, Startup as InStartup, Session as InSession};
ghost use Rattle.log_arrivals.specs.Contexts.{arrival_of, contexts_to};
ghost use Rattle.log_arrivals.specs.Calls.{given_in};
ghost use Rattle.log_arrivals.specs.Edges.{ArrivesWhere, known, place, session};

/// A datagram of session ID 0 opens in the current generation, also where it opens in the next one
/// too; in the next one where it opens there alone, once that is known; else nowhere.
pub fn the_current_generation_is_first()
    ensures both { ArrivesWhere (Some 5) true true (InStartup 4) }
    ensures current { ArrivesWhere (Some 5) true false (InStartup 4) }
    ensures next { ArrivesWhere (Some 5) false true (InStartup 5) }
    ensures neither { ArrivesWhere (Some 5) false false Nowhere }
    ensures unknown { ArrivesWhere None false true Nowhere }
    ensures alone { ArrivesWhere None true true (InStartup 4) }
    ensures contexts { (d : Digested) (c : KeptContexts) →
        contexts_to (6 ∷ []) (taking_at 0 known d c) ≡ Startup 4 ∷ Startup 5 ∷ [] }
{}

/// An attempt or a search takes datagrams in one generation: that of its keying, whether it is
/// the current one or not, and the current one in the hello stage.
pub fn an_attempt_takes_one_generation()
    ensures search { contexts_to (6 ∷ []) (spot_in known None None no_facts
        (Some (Searching (65 ∷ []) (1 ∷ []) (2 ∷ []) 9))) ≡ Startup 4 ∷ [] }
    ensures hello { contexts_to (6 ∷ []) (held_in known None None (Some (Opening 2 3 (7 ∷ []))))
        ≡ Startup 4 ∷ [] }
    ensures keying { contexts_to (6 ∷ []) (held_in known (Some 3) None
        (Some (Opening 2 3 (7 ∷ [])))) ≡ Startup 3 ∷ [] }
    ensures next { contexts_to (6 ∷ []) (held_in known (Some 5) None
        (Some (Opening 2 3 (7 ∷ [])))) ≡ Startup 5 ∷ [] }
    ensures nothing { contexts_to (6 ∷ []) (spot_in known (Some 3) (Some 3) no_facts None) ≡ [] }
{}

/// A session takes datagrams in its own context, towards this end and in the generation in which it
/// began, also while it is closing; an attempt isn't closing.
pub fn a_closing_session_takes_datagrams()
    ensures born { contexts_to (6 ∷ []) (spot_in known (Some 4) (Some 2) no_facts
        (Some (Closing (HalfOpen session) 9)))
        ≡ Session 2 (7 ∷ []) (8 ∷ []) (5 ∷ []) (6 ∷ []) 4 3 true ∷ [] }
    ensures confirmed { contexts_to (6 ∷ []) (held_in known (Some 4) (Some 2)
        (Some (KeptAsResponder session)))
        ≡ Session 2 (7 ∷ []) (8 ∷ []) (5 ∷ []) (6 ∷ []) 4 3 true ∷ [] }
    ensures opened { contexts_to (6 ∷ []) (spot_in known None (Some 2) no_facts
        (Some (Closing (KeptAsInitiator session) 9)))
        ≡ Session 2 (7 ∷ []) (8 ∷ []) (6 ∷ []) (5 ∷ []) 3 4 false ∷ [] }
    ensures attempt { contexts_to (6 ∷ []) (spot_in known None (Some 2) no_facts
        (Some (Closing (Opening 2 3 (7 ∷ [])) 9))) ≡ [] }
{}

/// Where a datagram opens that opens in a context.
pub fn a_context_tells_where()
    ensures nowhere { arrival_of None ≡ Nowhere }
    ensures startup { arrival_of (Some (Startup 5)) ≡ InStartup 5 }
    ensures session { arrival_of (Some (Session 2 (7 ∷ []) (8 ∷ []) (5 ∷ []) (6 ∷ []) 4 3 true))
        ≡ InSession }
    ensures back { arrival_of (Some (Session 2 (7 ∷ []) (8 ∷ []) (5 ∷ []) (6 ∷ []) 4 3 false))
        ≡ InSession }
{}

/// The count of a datagram is told by its bytes 28 to 35, the highest first.
pub fn the_count_is_in_eight_bytes()
    ensures lowest { count_in (replicate 35 0 ++ 7 ∷ 9 ∷ []) ≡ 7 }
    ensures highest { count_in (replicate 28 0 ++ 1 ∷ replicate 7 0) ≡ 2 ^ 56 }
    ensures before { count_in (replicate 27 0 ++ 1 ∷ replicate 8 0) ≡ 0 }
    ensures most { count_in (replicate 28 0 ++ replicate 8 255) ≡ 18446744073709551615 }
{}

/// Only the call that receives is given a datagram.
pub fn one_call_is_given_a_datagram()
    ensures receive { given_in (Receive place (1 ∷ [])) ≡ Some (1 ∷ []) }
    ensures empty { given_in (Receive place []) ≡ Some [] }
    ensures opens { given_in (Open (5 ∷ []) (1 ∷ [])) ≡ None }
    ensures tick { given_in Tick ≡ None }
    ensures other { given_in Other ≡ None }
{}
