//! Each moment and number at its edge and beside it, which cause may end which thing, and what
//! calls ask for. The functions do nothing: the contract of each is a table. A fingerprint is a
//! short list of bytes here.

ghost use Rattle.std.specs.Prelude.{◌≡◌, ◌∷◌, [], true, false, Some, None};
ghost use Rattle.glare_core.specs.declared.facts.Fact.TheVariants.{Born, Opened};
ghost use Rattle.glare_core.specs.declared.facts.Held.TheVariants.{HalfOpen, KeptAsResponder, KeptAsInitiator};
ghost use Rattle.glare_core.specs.declared.facts.Why.TheVariants.{Cancelled, Expired, Glare, Override, Unconfirmed, Near, Far, Idle};
ghost use Rattle.endpoint_model.specs.declared.entry.Entry.TheVariants.{Fact as FactEntry, Closed};
ghost use Rattle.log_digest.specs.Kept.{Digested};
ghost use Rattle.log_digest.specs.Generations.{begun_in};
ghost use Rattle.log_digest.specs.declared.spot.Spot.TheVariants.{Searching, Holding, Closing};
ghost use Rattle.log_values.specs.declared.log.LoggedCall.TheVariants.{Open, Seek, Cancel, Unseek, Close, Learn, Advance, Tick, Other};
ghost use Rattle.log_lines.specs.Decisions.{is_advanced, is_attempt_of, is_birth_next, is_cancelled, is_closed, is_half_open_under, is_idle, is_learnt, is_old_session, is_overdue, is_search_over, is_unconfirmed, is_unused, may_bear, may_end_held, may_start, opens, seeks, closes};
ghost use Rattle.log_lines.specs.Lines.{hangs_on_datagrams};
ghost use Rattle.log_lines.specs.Edges.{IsAt, attempt, ends_of, session};

/// Which cause may end an attempt, a half-open session, and sessions that are kept, in this order.
/// An attempt makes way where the peer prevails.
pub fn each_cause_has_its_things()
    ensures cancelled { ends_of (5 ∷ []) Cancelled ≡ true ∷ false ∷ false ∷ false ∷ [] }
    ensures expired { ends_of (5 ∷ []) Expired ≡ true ∷ false ∷ false ∷ false ∷ [] }
    ensures above { ends_of (7 ∷ []) Glare ≡ true ∷ false ∷ false ∷ false ∷ [] }
    ensures below { ends_of (5 ∷ []) Glare ≡ false ∷ false ∷ false ∷ false ∷ [] }
    ensures replaced { ends_of (5 ∷ []) Override ≡ false ∷ true ∷ true ∷ true ∷ [] }
    ensures unconfirmed { ends_of (5 ∷ []) Unconfirmed ≡ false ∷ true ∷ false ∷ false ∷ [] }
    ensures near { ends_of (5 ∷ []) Near ≡ false ∷ true ∷ true ∷ true ∷ [] }
    ensures far { ends_of (5 ∷ []) Far ≡ false ∷ true ∷ true ∷ true ∷ [] }
    ensures idle { ends_of (5 ∷ []) Idle ≡ false ∷ false ∷ true ∷ true ∷ [] }
{}

/// Two causes hang on datagrams.
pub fn two_causes_hang_on_datagrams()
    ensures far { hangs_on_datagrams Far ≡ true }
    ensures idle { hangs_on_datagrams Idle ≡ true }
    ensures near { hangs_on_datagrams Near ≡ false }
    ensures unconfirmed { hangs_on_datagrams Unconfirmed ≡ false }
{}

/// An attempt has the next number, is with another end, and starts where nothing is held.
pub fn an_attempt_has_the_next_number()
    ensures next { may_start (6 ∷ []) 4 None (5 ∷ []) 5 ≡ true }
    ensures again { may_start (6 ∷ []) 4 None (5 ∷ []) 4 ≡ false }
    ensures later { may_start (6 ∷ []) 4 None (5 ∷ []) 6 ≡ false }
    ensures own { may_start (5 ∷ []) 4 None (5 ∷ []) 5 ≡ false }
    ensures held { may_start (6 ∷ []) 4 (Some attempt) (5 ∷ []) 5 ≡ false }
{}

/// A session is born of an attempt whose number is above each that was seen of the peer, with the
/// count of the own attempts, where nothing is held.
pub fn a_birth_is_of_a_newer_attempt()
    ensures above { may_bear 4 1 None session ≡ true }
    ensures same { may_bear 4 2 None session ≡ false }
    ensures fewer { may_bear 5 1 None session ≡ false }
    ensures more { may_bear 3 1 None session ≡ false }
    ensures held { may_bear 4 1 (Some attempt) session ≡ false }
{}

/// What is answered, confirmed and ended is what is held, with its session ID.
pub fn facts_are_of_what_is_held()
    ensures answered { is_attempt_of session (Some attempt) ≡ true }
    ensures nothing { is_attempt_of session None ≡ false }
    ensures opened { is_attempt_of session (Some (KeptAsInitiator session)) ≡ false }
    ensures confirmed { is_half_open_under 3 (Some (HalfOpen session)) ≡ true }
    ensures other_confirmed { is_half_open_under 4 (Some (HalfOpen session)) ≡ false }
    ensures again { is_half_open_under 3 (Some (KeptAsResponder session)) ≡ false }
    ensures ended { may_end_held (6 ∷ []) (5 ∷ []) 3 Near (Some (HalfOpen session)) ≡ true }
    ensures other_ended { may_end_held (6 ∷ []) (5 ∷ []) 4 Near (Some (HalfOpen session))
        ≡ false }
    ensures none_ended { may_end_held (6 ∷ []) (5 ∷ []) 3 Near None ≡ false }
{}

/// An attempt expires after 95,000 ms, under its session ID; no session does.
pub fn an_attempt_lasts_95_seconds()
    ensures before { (d : Digested) → IsAt 95009 (Holding (5 ∷ []) 10) d →
        is_overdue d 3 (Some attempt) ≡ false }
    ensures then { (d : Digested) → IsAt 95010 (Holding (5 ∷ []) 10) d →
        is_overdue d 3 (Some attempt) ≡ true }
    ensures other { (d : Digested) → IsAt 95010 (Holding (5 ∷ []) 10) d →
        is_overdue d 4 (Some attempt) ≡ false }
    ensures opened { (d : Digested) → IsAt 95010 (Holding (5 ∷ []) 10) d →
        is_overdue d 3 (Some (KeptAsInitiator session)) ≡ false }
{}

/// A half-open session ends unconfirmed after 20,000 ms; none that is kept does.
pub fn a_confirmation_comes_within_20_seconds()
    ensures before { (d : Digested) → IsAt 20009 (Holding (5 ∷ []) 10) d →
        is_unconfirmed d (Some (HalfOpen session)) ≡ false }
    ensures then { (d : Digested) → IsAt 20010 (Holding (5 ∷ []) 10) d →
        is_unconfirmed d (Some (HalfOpen session)) ≡ true }
    ensures kept { (d : Digested) → IsAt 20010 (Holding (5 ∷ []) 10) d →
        is_unconfirmed d (Some (KeptAsResponder session)) ≡ false }
{}

/// A session is idle 120,000 ms after it began and after the last datagram that it took, if it took
/// one.
pub fn a_session_is_idle_after_120_seconds()
    ensures before { (d : Digested) → IsAt 120009 (Holding (5 ∷ []) 10) d →
        is_old_session d (Some (KeptAsResponder session)) ≡ false }
    ensures then { (d : Digested) → IsAt 120010 (Holding (5 ∷ []) 10) d →
        is_idle d (Some (KeptAsResponder session)) None ≡ true }
    ensures just_heard { (d : Digested) → IsAt 200000 (Holding (5 ∷ []) 10) d →
        is_idle d (Some (KeptAsInitiator session)) (Some 80001) ≡ false }
    ensures heard_then { (d : Digested) → IsAt 200000 (Holding (5 ∷ []) 10) d →
        is_idle d (Some (KeptAsInitiator session)) (Some 80000) ≡ true }
    ensures attempt { (d : Digested) → IsAt 200000 (Holding (5 ∷ []) 10) d →
        is_idle d (Some attempt) None ≡ false }
{}

/// A closing is over by a tick after 19,000 ms.
pub fn a_closing_lasts_19_seconds()
    ensures before { (d : Digested) → IsAt 19009 (Closing (HalfOpen session) 10) d →
        is_closed d Tick 3 ≡ false }
    ensures then { (d : Digested) → IsAt 19010 (Closing (HalfOpen session) 10) d →
        is_closed d Tick 3 ≡ true }
    ensures held { (d : Digested) → IsAt 19010 (Holding (5 ∷ []) 10) d →
        is_closed d Tick 3 ≡ false }
    ensures other { (d : Digested) → IsAt 19010 (Closing (HalfOpen session) 10) d →
        is_closed d Other 3 ≡ false }
{}

/// A search is over by its unseek, and by a tick after 95,000 ms.
pub fn a_search_lasts_95_seconds()
    ensures before { is_search_over Tick 3 95009 Expired (Some (Searching (65 ∷ []) [] [] 10))
        ≡ false }
    ensures then { is_search_over Tick 3 95010 Expired (Some (Searching (65 ∷ []) [] [] 10))
        ≡ true }
    ensures attempt { is_search_over Tick 3 95010 Expired (Some (Holding (5 ∷ []) 10)) ≡ false }
    ensures unsought { is_search_over (Unseek 3) 3 11 Cancelled
        (Some (Searching (65 ∷ []) [] [] 10)) ≡ true }
    ensures other { is_search_over (Unseek 4) 3 11 Cancelled
        (Some (Searching (65 ∷ []) [] [] 10)) ≡ false }
    ensures early { is_search_over (Unseek 3) 3 95010 Expired
        (Some (Searching (65 ∷ []) [] [] 10)) ≡ false }
    ensures closed { is_search_over Tick 3 95010 Idle (Some (Searching (65 ∷ []) [] [] 10))
        ≡ false }
{}

/// A session ID is free that isn't 0 and under which nothing stands.
pub fn a_used_session_id_is_not_free()
    ensures used { (d : Digested) → IsAt 11 (Closing (HalfOpen session) 10) d →
        is_unused 3 d ≡ false }
    ensures zero { (d : Digested) → is_unused 0 d ≡ false }
{}

/// What calls ask for: an open its peer with the nonce of its event, a seek its name, a cancel the
/// number of its attempt and a close its session ID.
pub fn calls_ask_for_one_thing()
    ensures opened { opens (7 ∷ []) (Open (5 ∷ []) (1 ∷ [])) (5 ∷ []) (7 ∷ []) ≡ true }
    ensures other_peer { opens (7 ∷ []) (Open (5 ∷ []) (1 ∷ [])) (4 ∷ []) (7 ∷ []) ≡ false }
    ensures other_nonce { opens (7 ∷ []) (Open (5 ∷ []) (1 ∷ [])) (5 ∷ []) (8 ∷ []) ≡ false }
    ensures sought { seeks (Seek (65 ∷ []) (1 ∷ [])) (65 ∷ []) ≡ true }
    ensures other_name { seeks (Seek (65 ∷ []) (1 ∷ [])) (66 ∷ []) ≡ false }
    ensures cancelled { is_cancelled (Cancel 2) (Some attempt) ≡ true }
    ensures other_number { is_cancelled (Cancel 3) (Some attempt) ≡ false }
    ensures closed { closes (Close 3) 3 ≡ true }
    ensures other_session { closes (Close 3) 4 ≡ false }
    ensures time { closes Tick 3 ≡ false }
{}

/// A thing makes way where the very next entry is the birth of a session with its peer.
pub fn a_birth_follows_at_once()
    ensures next { is_birth_next (5 ∷ []) (FactEntry (Born session) ∷ []) ≡ true }
    ensures other_peer { is_birth_next (6 ∷ []) (FactEntry (Born session) ∷ []) ≡ false }
    ensures opened { is_birth_next (5 ∷ []) (FactEntry (Opened session) ∷ []) ≡ false }
    ensures later { is_birth_next (5 ∷ []) (Closed 4 ∷ FactEntry (Born session) ∷ []) ≡ false }
    ensures none { is_birth_next (5 ∷ []) [] ≡ false }
{}

/// A generation is learnt that is the next one, where none is known; and the one that is known
/// becomes current.
pub fn generations_succeed_one_by_one()
    ensures learnt { is_learnt (Learn (1 ∷ [])) (begun_in 7) 8 ≡ true }
    ensures same { is_learnt (Learn (1 ∷ [])) (begun_in 7) 7 ≡ false }
    ensures later { is_learnt (Learn (1 ∷ [])) (begun_in 7) 9 ≡ false }
    ensures known { is_learnt (Learn (1 ∷ [])) (record { current = 7; next = Some 8 }) 8
        ≡ false }
    ensures advanced { is_advanced Advance (record { current = 7; next = Some 8 }) 8 ≡ true }
    ensures other { is_advanced Advance (record { current = 7; next = Some 8 }) 9 ≡ false }
    ensures unknown { is_advanced Advance (begun_in 7) 8 ≡ false }
    ensures learn { is_advanced (Learn (1 ∷ [])) (record { current = 7; next = Some 8 }) 8
        ≡ false }
{}
