//! In which contexts datagrams go out, with which numbers, and with whose keyings. The functions do
//! nothing: the contract of each is a table. A nonce and a fingerprint are a byte here.

ghost use Rattle.std.specs.Prelude.{◌≡◌, ◌∷◌, ℕ, List, [], true, false, Option, Some, None};
ghost use Rattle.rtmfp_packet.specs.declared.head.Mode.TheVariants.{Initiator, Responder};
ghost use Rattle.rtmfp_packet.specs.Whole.{Whole};
ghost use Rattle.crypto_profile.specs.declared.keys.Context.TheVariants.{Startup};
ghost use Rattle.glare_core.specs.declared.facts.Held.TheVariants.{Opening, HalfOpen};
ghost use Rattle.glare_core.specs.declared.facts.Held.TheVariants.{KeptAsResponder};
ghost use Rattle.glare_core.specs.declared.facts.Held.TheVariants.{KeptAsInitiator};
ghost use Rattle.endpoint_model.specs.Keying.{initiator_part};
ghost use Rattle.fact_digest.specs.Roll.{Rolled};
ghost use Rattle.log_arrivals.specs.declared.arrival.Arrival.TheVariants.{Nowhere};
ghost use Rattle.log_arrivals.specs.declared.arrival.Arrival.TheVariants.{Session as InSession};
ghost use Rattle.log_arrivals.specs.declared.arrival.Arrival.TheVariants.{Startup as InStartup};
ghost use Rattle.log_digest.specs.declared.spot.Spot.TheVariants.{Searching, Closing};
ghost use Rattle.log_digest.specs.Numbers.{stamp_of};
ghost use Rattle.log_contexts.specs.Kept.{tag_at};
ghost use Rattle.log_contexts.specs.Lowest.{is_underway};
ghost use Rattle.log_outs.specs.declared.sender.Cause.{Cause};
ghost use Rattle.log_outs.specs.declared.sender.Sender.{Sender};
ghost use Rattle.log_outs.specs.Edges.{attempt, born_here, component, here, keying, nonces};
ghost use Rattle.log_outs.specs.Edges.{opened_here, session};
ghost use Rattle.log_outs.specs.Keyings.{AttemptMay, GoesIn, TakesHello, Welcomes};
ghost use Rattle.log_outs.specs.Keyings.{is_of_attempt, is_of_birth, is_to_zero};
ghost use Rattle.log_outs.specs.Numbers.{is_new};
ghost use Rattle.log_outs.specs.Sessions.{is_in_way};
ghost use Rattle.log_outs.specs.Standing.{attempt_in, attempt_under, born_in, born_under};
ghost use Rattle.log_outs.specs.Standing.{standing_in};

/// A session sends away from its end, in the generation in which it began, under its far ID.
pub fn a_session_sends_away_from_its_end()
    ensures born { is_in_way here (Some 2) (Some (HalfOpen session)) (born_here 2 false) 4 ≡ true }
    ensures confirmed { is_in_way here (Some 2) (Some (KeptAsResponder session))
        (born_here 2 false) 4 ≡ true }
    ensures opened { is_in_way here (Some 2) (Some (KeptAsInitiator session)) (opened_here 2 true)
        4 ≡ true }
    ensures towards { is_in_way here (Some 2) (Some (HalfOpen session)) (born_here 2 true) 4
        ≡ false }
    ensures towards_opened { is_in_way here (Some 2) (Some (KeptAsInitiator session))
        (opened_here 2 false) 4 ≡ false }
    ensures other_side { is_in_way here (Some 2) (Some (KeptAsInitiator session))
        (born_here 2 false) 4 ≡ false }
    ensures later { is_in_way here (Some 2) (Some (HalfOpen session)) (born_here 3 false) 4
        ≡ false }
    ensures earlier { is_in_way here (Some 2) (Some (HalfOpen session)) (born_here 1 false) 4
        ≡ false }
    ensures near { is_in_way here (Some 2) (Some (HalfOpen session)) (born_here 2 false) 3
        ≡ false }
    ensures startup { is_in_way here (Some 2) (Some (HalfOpen session)) (Startup 2) 4 ≡ false }
    ensures attempt { is_in_way here (Some 2) (Some (Opening 2 3 (7 ∷ []))) (opened_here 2 true) 4
        ≡ false }
    ensures nothing { is_in_way here (Some 2) None (born_here 2 false) 4 ≡ false }
{}

/// A session goes on to send while it closes; neither its keying nor that of an attempt does.
pub fn a_closing_session_sends_no_keying()
    ensures stands { (roll : Rolled) → standing_in roll (Some (Closing (HalfOpen session) 9))
        ≡ Some (HalfOpen session) }
    ensures keying { (roll : Rolled) → born_under roll (Some (Closing (HalfOpen session) 9))
        ≡ None }
    ensures attempt { (roll : Rolled) → attempt_under roll (Some (Closing (HalfOpen session) 9))
        ≡ None }
    ensures search { (roll : Rolled) →
        attempt_under roll (Some (Searching (65 ∷ []) (1 ∷ []) (2 ∷ []) 9)) ≡ None }
{}

/// A number goes out once in a context; in a session that is asked only where the end's nonces are
/// all different.
pub fn a_number_goes_out_once()
    ensures used { is_new (stamp_of (Startup 0) (1 ∷ []) ∷ []) (nonces true) (Startup 0) (1 ∷ [])
        ≡ false }
    ensures other { is_new (stamp_of (Startup 0) (1 ∷ []) ∷ []) (nonces true) (Startup 0) (2 ∷ [])
        ≡ true }
    ensures generation { is_new (stamp_of (Startup 0) (1 ∷ []) ∷ []) (nonces true) (Startup 1)
        (1 ∷ []) ≡ true }
    ensures same_nonces { is_new (stamp_of (Startup 0) (1 ∷ []) ∷ []) (nonces false) (Startup 0)
        (1 ∷ []) ≡ false }
    ensures session { is_new (stamp_of (born_here 2 false) (1 ∷ []) ∷ []) (nonces true)
        (born_here 2 false) (1 ∷ []) ≡ false }
    ensures direction { is_new (stamp_of (born_here 2 false) (1 ∷ []) ∷ []) (nonces true)
        (born_here 2 true) (1 ∷ []) ≡ true }
    ensures session_of_same { is_new (stamp_of (born_here 2 false) (1 ∷ []) ∷ []) (nonces false)
        (born_here 2 false) (1 ∷ []) ≡ true }
{}

/// The keying of a session that was born here goes to its peer, in startup of the generation in
/// which the session began, with its values.
pub fn a_birth_answers_its_peer()
    ensures it { is_of_birth here (Some session) (Some 2) (Startup 2) 4 (component 0) ≡ true }
    ensures generation { is_of_birth here (Some session) (Some 2) (Startup 3) 4 (component 0)
        ≡ false }
    ensures far { is_of_birth here (Some session) (Some 2) (Startup 2) 3 (component 0) ≡ false }
    ensures count { is_of_birth here (Some session) (Some 2) (Startup 2) 4 (component 1) ≡ false }
    ensures in_session { is_of_birth here (Some session) (Some 2) (born_here 2 false) 4
        (component 0) ≡ false }
    ensures none { is_of_birth here None (Some 2) (Startup 2) 4 (component 0) ≡ false }
    ensures half_open { born_in (Some (HalfOpen session)) ≡ Some session }
    ensures confirmed { born_in (Some (KeptAsResponder session)) ≡ Some session }
    ensures opened { born_in (Some (KeptAsInitiator session)) ≡ None }
{}

/// The keying of an attempt has its nonce, its number and its peer, and the end's certificate; only
/// an attempt has one.
pub fn an_attempt_has_its_component()
    ensures attempt { attempt_in (5 ∷ []) (Some (Opening 2 3 (7 ∷ [])))
        ≡ Some (attempt (initiator_part (7 ∷ []) 2 (5 ∷ []))) }
    ensures opened { attempt_in (5 ∷ []) (Some (KeptAsInitiator session)) ≡ None }
    ensures nothing { attempt_in (5 ∷ []) None ≡ None }
    ensures same { is_of_attempt (9 ∷ []) (attempt (1 ∷ [])) (keying (9 ∷ []) (1 ∷ [])) ≡ true }
    ensures other { is_of_attempt (9 ∷ []) (attempt (1 ∷ [])) (keying (9 ∷ []) (2 ∷ [])) ≡ false }
    ensures cert { is_of_attempt (9 ∷ []) (attempt (1 ∷ [])) (keying (8 ∷ []) (1 ∷ [])) ≡ false }
    ensures none { (s : Sender) (why : Cause) →
        AttemptMay s why 2 (keying (9 ∷ []) (1 ∷ [])) None → ⊥ }
{}

/// A keying goes out in the generation of the one before it. In the hello stage it goes out where
/// the event's datagram opened under session ID 0, in its generation, with a hello that has the
/// tag.
pub fn a_keying_follows_a_hello()
    ensures again { (s : Sender) (why : Cause) (tag : Option (List ℕ)) →
        GoesIn s why 3 (Some 2) tag (5 ∷ []) 2 }
    ensures other { (s : Sender) (why : Cause) (tag : Option (List ℕ)) →
        GoesIn s why 3 (Some 2) tag (5 ∷ []) 3 → ⊥ }
    ensures nowhere { (s : Sender) (why : Cause) (tag : Option (List ℕ)) →
        why.arrival ≡ Nowhere → GoesIn s why 3 None tag (5 ∷ []) 2 → ⊥ }
    ensures in_session { (s : Sender) (why : Cause) (tag : Option (List ℕ)) →
        why.arrival ≡ InSession → GoesIn s why 3 None tag (5 ∷ []) 2 → ⊥ }
    ensures later { (s : Sender) (why : Cause) (tag : Option (List ℕ)) →
        why.arrival ≡ InStartup 2 → GoesIn s why 3 None tag (5 ∷ []) 3 → ⊥ }
    ensures elsewhere { (s : Sender) (why : Cause) (tag : Option (List ℕ)) →
        is_to_zero why.call.now ≡ false → GoesIn s why 3 None tag (5 ∷ []) 2 → ⊥ }
    ensures no_tag { (s : Sender) (why : Cause) → GoesIn s why 3 None None (5 ∷ []) 2 → ⊥ }
{}

/// A hello is one of a packet of startup, and the attempt or search with the lowest session ID of
/// those with its tag takes it.
pub fn the_lowest_with_the_tag_takes_a_hello()
    ensures lower { (s : Sender) (why : Cause) → is_underway s.digest.now 2 ≡ true →
        tag_at 2 s.contexts.now.threads ≡ Some (1 ∷ []) →
        TakesHello s why 3 (1 ∷ []) (5 ∷ []) → ⊥ }
    ensures initiator { (packet : Whole) → packet.head.mode ≡ Initiator →
        Welcomes (1 ∷ []) (5 ∷ []) packet → ⊥ }
    ensures responder { (packet : Whole) → packet.head.mode ≡ Responder →
        Welcomes (1 ∷ []) (5 ∷ []) packet → ⊥ }
{}
