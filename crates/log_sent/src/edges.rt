//! Which datagrams went out, and which are the same; which entries state a nonce; and which
//! fingerprints are the same. The functions do nothing: the contract of each is a table. Bytes are
//! a short list here.

ghost use Rattle.std.specs.Prelude.{◌≡◌, ◌∷◌, [], true, false};
ghost use Rattle.crypto_profile.specs.declared.keys.Context.TheVariants.{Startup, Session};
ghost use Rattle.endpoint_model.specs.declared.entry.Entry.TheVariants.{Closed, Fact, Learnt};
ghost use Rattle.endpoint_laws.specs.History.{WasSent};
ghost use Rattle.glare_core.specs.declared.facts.Fact.TheVariants.{Started, Born, Opened, Confirmed, Ended};
ghost use Rattle.glare_core.specs.declared.facts.Why.TheVariants.{Near};
ghost use Rattle.log_sent.specs.Pieces.{is_same_sealed};
ghost use Rattle.log_sent.specs.Sent.{is_sent_among};
ghost use Rattle.log_sent.specs.Nonces.{stated_at, stated_onto};
ghost use Rattle.log_sent.specs.Prints.{has_print};
ghost use Rattle.log_sent.specs.Edges.{first, sealed_for, second, sends, session, towards};

/// A datagram went out in the context that it was sealed for alone, by whichever end, from its
/// event on; one that an end was given didn't.
pub fn datagrams_went_out_in_one_context()
    ensures sent { WasSent (5 ∷ []) (Startup 0) first }
    ensures beside { WasSent (6 ∷ []) (Startup 0) first }
    ensures context { WasSent (5 ∷ []) (Startup 1) first → ⊥ }
    ensures bytes { WasSent (5 ∷ 5 ∷ []) (Startup 0) first → ⊥ }
    ensures later { WasSent (7 ∷ []) (Startup 1) first → ⊥ }
    ensures then { WasSent (7 ∷ []) (Startup 1) second }
    ensures still { WasSent (5 ∷ []) (Startup 0) second }
    ensures other { WasSent (5 ∷ []) (Startup 1) second → ⊥ }
    ensures was_given { WasSent (4 ∷ []) (Startup 1) second → ⊥ }
{}

/// Two are the same where their bytes and all of their contexts are.
pub fn the_whole_context_counts()
    ensures same { is_same_sealed (sealed_for (towards true)) (sealed_for (towards true)) ≡ true }
    ensures direction { is_same_sealed (sealed_for (towards true)) (sealed_for (towards false))
        ≡ false }
    ensures generation { is_same_sealed (sealed_for (towards true)) (sealed_for
        (Session 1 (7 ∷ []) (8 ∷ []) (5 ∷ []) (6 ∷ []) 4 3 true)) ≡ false }
    ensures ni { is_same_sealed (sealed_for (towards true)) (sealed_for
        (Session 0 (6 ∷ []) (8 ∷ []) (5 ∷ []) (6 ∷ []) 4 3 true)) ≡ false }
    ensures nr { is_same_sealed (sealed_for (towards true)) (sealed_for
        (Session 0 (7 ∷ []) (7 ∷ []) (5 ∷ []) (6 ∷ []) 4 3 true)) ≡ false }
    ensures fp_i { is_same_sealed (sealed_for (towards true)) (sealed_for
        (Session 0 (7 ∷ []) (8 ∷ []) (6 ∷ []) (6 ∷ []) 4 3 true)) ≡ false }
    ensures fp_r { is_same_sealed (sealed_for (towards true)) (sealed_for
        (Session 0 (7 ∷ []) (8 ∷ []) (5 ∷ []) (5 ∷ []) 4 3 true)) ≡ false }
    ensures sid_i { is_same_sealed (sealed_for (towards true)) (sealed_for
        (Session 0 (7 ∷ []) (8 ∷ []) (5 ∷ []) (6 ∷ []) 5 3 true)) ≡ false }
    ensures sid_r { is_same_sealed (sealed_for (towards true)) (sealed_for
        (Session 0 (7 ∷ []) (8 ∷ []) (5 ∷ []) (6 ∷ []) 4 4 true)) ≡ false }
    ensures startup { is_same_sealed (sealed_for (Startup 0)) (sealed_for (Startup 0)) ≡ true }
    ensures next { is_same_sealed (sealed_for (Startup 0)) (sealed_for (Startup 1)) ≡ false }
    ensures beside { is_same_sealed (sealed_for (Startup 0)) (sealed_for (towards true)) ≡ false }
    ensures bytes { is_same_sealed (record { datagram = 2 ∷ []; context = Startup 0 })
        (sealed_for (Startup 0)) ≡ false }
{}

/// What entries send: the datagram of each that goes out, in its context.
pub fn entries_send()
    ensures among { is_sent_among (Closed 3 ∷ sends (1 ∷ []) (Startup 0) ∷ [])
        (sealed_for (Startup 0)) ≡ true }
    ensures not_among { is_sent_among (Closed 3 ∷ sends (1 ∷ []) (Startup 0) ∷ [])
        (sealed_for (Startup 1)) ≡ false }
{}

/// An attempt that is started states the initiator's nonce and a session that is born the
/// responder's; nothing else states one.
pub fn two_facts_state_a_nonce()
    ensures started { stated_at (Fact (Started (5 ∷ []) 2 3 (7 ∷ []))) ≡ (7 ∷ []) ∷ [] }
    ensures born { stated_at (Fact (Born session)) ≡ (8 ∷ []) ∷ [] }
    ensures opened { stated_at (Fact (Opened session)) ≡ [] }
    ensures confirmed { stated_at (Fact (Confirmed (5 ∷ []) 3)) ≡ [] }
    ensures ended { stated_at (Fact (Ended (5 ∷ []) 3 Near)) ≡ [] }
    ensures other { stated_at (Learnt 1) ≡ [] }
    ensures order { stated_onto (Fact (Started (5 ∷ []) 2 3 (7 ∷ [])) ∷ Closed 3
        ∷ Fact (Born session) ∷ []) ((9 ∷ []) ∷ []) ≡ (8 ∷ []) ∷ (7 ∷ []) ∷ (9 ∷ []) ∷ [] }
{}

/// A fingerprint is among others where one of them is the same, byte for byte.
pub fn fingerprints_are_compared_whole()
    ensures none { has_print [] (5 ∷ []) ≡ false }
    ensures same { has_print ((4 ∷ []) ∷ (5 ∷ []) ∷ []) (5 ∷ []) ≡ true }
    ensures other { has_print ((4 ∷ []) ∷ (5 ∷ []) ∷ []) (6 ∷ []) ≡ false }
    ensures beginning { has_print ((5 ∷ 6 ∷ []) ∷ []) (5 ∷ []) ≡ false }
{}
