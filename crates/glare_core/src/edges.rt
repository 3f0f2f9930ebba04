//! The rules of what is held with a peer at their edges and one beside, and the order of refusals.
//! The functions do nothing: the contract of each states what the definitions that the other
//! contracts cite are there. A fingerprint is a short list of bytes here.

ghost use Rattle.std.specs.Prelude.{◌≡◌, ◌∷◌, ◌-◌, ◌^◌, [], true, false, Option, Some, None};
ghost use Rattle.std.specs.FinMap.{get, len};
ghost use Rattle.glare_core.specs.declared.facts.Fact.{Fact};
ghost use Rattle.glare_core.specs.declared.facts.Fact.TheVariants.{Started, Born, Opened, Confirmed, Ended};
ghost use Rattle.glare_core.specs.declared.facts.Held.TheVariants.{Opening, HalfOpen, KeptAsResponder, KeptAsInitiator};
ghost use Rattle.glare_core.specs.declared.facts.Why.{Why};
ghost use Rattle.glare_core.specs.declared.facts.Why.TheVariants.{Near, Glare as ForGlare, Override as ForOverride};
ghost use Rattle.glare_core.specs.declared.answers.StartRefusal.TheVariants.{OwnPrint, AttemptsSpent, Opening as AttemptHeld, Open as SessionHeld, PeersFull as NoRowToStart};
ghost use Rattle.glare_core.specs.declared.answers.HearRefusal.TheVariants.{Stale, Glare, PeersFull, SessionsFull};
ghost use Rattle.glare_core.specs.declared.answers.Heard.TheVariants.{Again, Birth};
ghost use Rattle.glare_core.specs.Ledger.{Ledger, row_after};
ghost use Rattle.glare_core.specs.Calls.{again_of, again_or, born_fact, confirmed_fact, ended_fact, glare_of, hear_refusal, is_born_of, opened_fact, start_held, start_refusal, started_fact, way_made};
ghost use Rattle.glare_core.specs.Standing.{count, held, seen};
ghost use Rattle.glare_core.specs.Edges.{keying, row, session};

/// A keying is stale whose number isn't above the greatest one of its peer, whatever is held. Then
/// comes glare, then that there is no row for the peer, and then that nothing is held and no
/// session is free.
pub fn a_keying_is_refused_for_the_first_reason()
    ensures stale { (l : Ledger) → get l.rows (5 ∷ []) ≡ Some (row (Some (Opening 2 7 [])) 3) →
        hear_refusal l (keying 3) false ≡ Some (Stale 3) }
    ensures new_and_stale { (l : Ledger) → get l.rows (5 ∷ []) ≡ None →
        hear_refusal l (keying 0) false ≡ Some (Stale 0) }
    ensures glare { (l : Ledger) → l.own ≡ 6 ∷ [] →
        get l.rows (5 ∷ []) ≡ Some (row (Some (Opening 2 7 [])) 3) →
        hear_refusal l (keying 4) false ≡ Some (Glare 2) }
    ensures peers_full { (l : Ledger) → get l.rows (5 ∷ []) ≡ None → len l.rows ≡ 4 →
        l.max_peers ≡ 4 → hear_refusal l (keying 1) false ≡ Some (PeersFull 4) }
    ensures sessions_full { (l : Ledger) → get l.rows (5 ∷ []) ≡ None → len l.rows ≡ 3 →
        l.max_peers ≡ 4 → hear_refusal l (keying 1) false ≡ Some SessionsFull }
    ensures known { (l : Ledger) → get l.rows (5 ∷ []) ≡ Some (row None 3) → len l.rows ≡ 4 →
        l.max_peers ≡ 4 → hear_refusal l (keying 4) false ≡ Some SessionsFull }
    ensures free { (l : Ledger) → get l.rows (5 ∷ []) ≡ Some (row None 3) → len l.rows ≡ 4 →
        l.max_peers ≡ 4 → hear_refusal l (keying 4) true ≡ None }
{}

/// What makes way needs no session that is free: an attempt where the peer prevails, and a session.
pub fn what_is_held_makes_way()
    ensures attempt { (l : Ledger) → l.own ≡ 4 ∷ [] →
        get l.rows (5 ∷ []) ≡ Some (row (Some (Opening 2 7 [])) 3) →
        hear_refusal l (keying 4) false ≡ None }
    ensures half_open { (l : Ledger) →
        get l.rows (5 ∷ []) ≡ Some (row (Some (HalfOpen (session 3))) 3) →
        hear_refusal l (keying 4) false ≡ None }
    ensures glare { way_made (5 ∷ []) (Some (Opening 2 7 [])) ≡ Some (Ended (5 ∷ []) 7 ForGlare) }
    ensures opening { way_made (5 ∷ []) (Some (HalfOpen (session 3)))
        ≡ Some (Ended (5 ∷ []) 10 ForOverride) }
    ensures responder { way_made (5 ∷ []) (Some (KeptAsResponder (session 3)))
        ≡ Some (Ended (5 ∷ []) 10 ForOverride) }
    ensures initiator { way_made (5 ∷ []) (Some (KeptAsInitiator (session 3)))
        ≡ Some (Ended (5 ∷ []) 10 ForOverride) }
    ensures nothing { way_made (5 ∷ []) None ≡ None }
{}

/// Where attempts cross, the end with the higher fingerprint prevails. A session is no attempt.
pub fn the_higher_fingerprint_prevails()
    ensures above { glare_of (6 ∷ []) (5 ∷ []) (Some (Opening 2 7 [])) ≡ Some (Glare 2) }
    ensures equal { glare_of (5 ∷ []) (5 ∷ []) (Some (Opening 2 7 [])) ≡ None }
    ensures below { glare_of (4 ∷ []) (5 ∷ []) (Some (Opening 2 7 [])) ≡ None }
    ensures session { glare_of (6 ∷ []) (5 ∷ []) (Some (HalfOpen (session 3))) ≡ None }
    ensures nothing { glare_of (6 ∷ []) (5 ∷ []) None ≡ None }
{}

/// The very keying of which a held session was born is heard again, though its number is stale: the
/// number, the nonce and the session ID have to be the same.
pub fn the_same_keying_is_heard_again()
    ensures same { is_born_of (session 3) (keying 3) ≡ true }
    ensures number { is_born_of (session 3) (keying 4) ≡ false }
    ensures nonce { is_born_of (session 3) (record (keying 3) { ni = 4 ∷ [] }) ≡ false }
    ensures id { is_born_of (session 3) (record (keying 3) { far = 21 }) ≡ false }
    ensures opening { again_of (Some (HalfOpen (session 3))) (keying 3) ≡ Some 10 }
    ensures responder { again_of (Some (KeptAsResponder (session 3))) (keying 3) ≡ Some 10 }
    ensures initiator { again_of (Some (KeptAsInitiator (session 3))) (keying 3) ≡ None }
    ensures attempt { again_of (Some (Opening 3 10 (3 ∷ []))) (keying 3) ≡ None }
    ensures never_refused { (l : Ledger) →
        get l.rows (5 ∷ []) ≡ Some (row (Some (HalfOpen (session 3))) 3) →
        hear_refusal l (keying 3) false ≡ None }
    ensures another { (l : Ledger) →
        get l.rows (5 ∷ []) ≡ Some (row (Some (HalfOpen (session 3))) 3) →
        hear_refusal l (record (keying 3) { far = 21 }) true ≡ Some (Stale 3) }
{}

/// No attempt starts towards this end itself, then while one or a session is held, then after the
/// last number, and then without a row for the peer.
pub fn a_start_is_refused_for_the_first_reason()
    ensures own { (l : Ledger) → l.own ≡ 5 ∷ [] → l.started ≡ 2 ^ 64 - 1 →
        start_refusal l (5 ∷ []) ≡ Some OwnPrint }
    ensures attempt { (l : Ledger) → l.own ≡ 6 ∷ [] → l.started ≡ 2 ^ 64 - 1 →
        get l.rows (5 ∷ []) ≡ Some (row (Some (Opening 2 7 [])) 3) →
        start_refusal l (5 ∷ []) ≡ Some (AttemptHeld 2) }
    ensures half_open { start_held (Some (HalfOpen (session 3))) ≡ Some (SessionHeld 10) }
    ensures responder { start_held (Some (KeptAsResponder (session 3))) ≡ Some (SessionHeld 10) }
    ensures initiator { start_held (Some (KeptAsInitiator (session 3))) ≡ Some (SessionHeld 10) }
    ensures spent { (l : Ledger) → l.own ≡ 6 ∷ [] → l.started ≡ 2 ^ 64 - 1 →
        get l.rows (5 ∷ []) ≡ None → len l.rows ≡ l.max_peers →
        start_refusal l (5 ∷ []) ≡ Some AttemptsSpent }
    ensures full { (l : Ledger) → l.own ≡ 6 ∷ [] → l.started ≡ 2 ^ 64 - 2 →
        get l.rows (5 ∷ []) ≡ None → len l.rows ≡ 4 → l.max_peers ≡ 4 →
        start_refusal l (5 ∷ []) ≡ Some (NoRowToStart 4) }
    ensures last { (l : Ledger) → l.own ≡ 6 ∷ [] → l.started ≡ 2 ^ 64 - 2 →
        get l.rows (5 ∷ []) ≡ Some (row None 3) → start_refusal l (5 ∷ []) ≡ None }
{}

/// A number counts all attempts of an end, from 1 on, towards whatever peer. A session that is born
/// has that of the keying, and tells how many attempts this end started.
pub fn facts_have_their_numbers()
    ensures started { (l : Ledger) → l.started ≡ 6 →
        started_fact l (5 ∷ []) 7 [] ≡ Started (5 ∷ []) 7 7 [] }
    ensures born { (l : Ledger) → l.started ≡ 2 →
        born_fact l (keying 3) 10 (4 ∷ []) ≡ Born (session 3) }
    ensures again { (birth : Fact) → again_or (Some 10) (Birth None birth) ≡ Again 10 }
    ensures opened { opened_fact (Some (Opening 3 10 (3 ∷ []))) (5 ∷ []) (4 ∷ []) 20 2
        ≡ Some (Opened (session 3)) }
    ensures none_opened { opened_fact (Some (HalfOpen (session 3))) (5 ∷ []) (4 ∷ []) 20 2 ≡ None }
    ensures confirmed { confirmed_fact (Some (HalfOpen (session 3))) (5 ∷ [])
        ≡ Some (Confirmed (5 ∷ []) 10) }
    ensures confirmed_once { confirmed_fact (Some (KeptAsResponder (session 3))) (5 ∷ []) ≡ None }
    ensures ended { (why : Why) → ended_fact (Some (Opening 3 7 [])) (5 ∷ []) why
        ≡ Some (Ended (5 ∷ []) 7 why) }
    ensures counted { count (Born (session 3) ∷ Started (6 ∷ []) 2 8 [] ∷ Started (5 ∷ []) 1 7 []
        ∷ []) ≡ 2 }
{}

/// The floor of a peer is the greatest number that a Born or an Opened told of its attempts. It
/// stays when what is held ends.
pub fn a_floor_is_the_greatest_number_seen()
    ensures none { seen (5 ∷ []) (Started (5 ∷ []) 9 7 [] ∷ []) ≡ 0 }
    ensures born { seen (5 ∷ []) (Born (session 3) ∷ []) ≡ 3 }
    ensures opened { seen (5 ∷ []) (Opened (session 3) ∷ []) ≡ 2 }
    ensures greatest { seen (5 ∷ []) (Opened (session 9) ∷ Born (session 3) ∷ []) ≡ 3 }
    ensures ended { (why : Why) → seen (5 ∷ []) (Ended (5 ∷ []) 10 why ∷ Born (session 3) ∷ [])
        ≡ 3 }
    ensures other { seen (6 ∷ []) (Born (session 3) ∷ []) ≡ 0 }
    ensures kept { (why : Why) → row_after (Ended (5 ∷ []) 10 why)
        (row (Some (HalfOpen (session 3))) 3) ≡ row None 3 }
{}

/// From a Started or a Born something is held with its peer, until its Ended.
pub fn a_thing_is_held_until_it_ends()
    ensures nothing { held (5 ∷ []) [] ≡ None }
    ensures attempt { held (5 ∷ []) (Started (5 ∷ []) 3 10 (3 ∷ []) ∷ [])
        ≡ Some (Opening 3 10 (3 ∷ [])) }
    ensures born { held (5 ∷ []) (Born (session 3) ∷ []) ≡ Some (HalfOpen (session 3)) }
    ensures opened { held (5 ∷ []) (Opened (session 3) ∷ Started (5 ∷ []) 3 10 (3 ∷ []) ∷ [])
        ≡ Some (KeptAsInitiator (session 3)) }
    ensures confirmed { held (5 ∷ []) (Confirmed (5 ∷ []) 10 ∷ Born (session 3) ∷ [])
        ≡ Some (KeptAsResponder (session 3)) }
    ensures ended { held (5 ∷ []) (Ended (5 ∷ []) 10 Near ∷ Born (session 3) ∷ []) ≡ None }
    ensures other { held (5 ∷ []) (Ended (6 ∷ []) 10 Near ∷ Born (session 3) ∷ [])
        ≡ Some (HalfOpen (session 3)) }
{}
