//! What begins under a session ID, what goes out and begins there later, and in which generation it
//! takes datagrams. The functions do nothing: the contract of each is a table. A tag is a byte here.

ghost use Rattle.std.specs.Prelude.{◌≡◌, ◌∷◌, ℕ, [], true, false, Some, None};
ghost use Rattle.std.specs.FinMap.{empty, get};
ghost use Rattle.crypto_profile.specs.declared.keys.Context.TheVariants.{Startup as InStartup};
ghost use Rattle.glare_core.specs.declared.facts.Fact.TheVariants.{Started, Born, Opened, Confirmed, Ended};
ghost use Rattle.glare_core.specs.declared.facts.Held.TheVariants.{Opening, HalfOpen, KeptAsResponder, KeptAsInitiator};
ghost use Rattle.glare_core.specs.declared.facts.Why.TheVariants.{Near, Idle};
ghost use Rattle.fact_digest.specs.Roll.{Rolled};
ghost use Rattle.log_digest.specs.declared.spot.Spot.TheVariants.{Closing, Searching};
ghost use Rattle.log_digest.specs.Kept.{Digested};
ghost use Rattle.log_contexts.specs.Kept.{KeptContexts, ThreadTable, generation_in, last_in, tag_at};
ghost use Rattle.log_contexts.specs.Lowest.{IsLowest, is_attempt, is_underway, underway_in};
ghost use Rattle.log_contexts.specs.Alone.{noted};
ghost use Rattle.log_contexts.specs.Changes.{begun_id, begun_in, heard_by, keyed, sent_in, started, stated, takes_if, with_session};
ghost use Rattle.log_contexts.specs.Edges.{known, session, thread, towards};
ghost use Rattle.log_contexts.specs.Taking.{closing_in, held_in};
ghost use Rattle.log_contexts.specs.declared.taking.Taking.TheVariants.{Nothing, Attempt, Session};

/// A tag stays when a search becomes an attempt, whose call draws none, and is new where a call
/// draws one; and a keying is forgotten at each.
pub fn a_tag_stays_where_none_is_drawn()
    ensures attempt { Some (started None (thread 1 None)) ≡ thread 1 None }
    ensures drawn { Some (started (Some (2 ∷ [])) (thread 1 None)) ≡ thread 2 None }
    ensures first { Some (started (Some (2 ∷ [])) None) ≡ thread 2 None }
    ensures forgotten { Some (started None (thread 1 (Some 5))) ≡ thread 1 None }
    ensures sought { Some (started (Some (2 ∷ [])) (thread 1 (Some 5))) ≡ thread 2 None }
{}

/// The generation is that of the last keying, and the tag stays.
pub fn the_last_keying_counts()
    ensures first { Some (keyed 5 (thread 1 None)) ≡ thread 1 (Some 5) }
    ensures later { Some (keyed 6 (thread 1 (Some 5))) ≡ thread 1 (Some 6) }
    ensures earlier { Some (keyed 5 (thread 1 (Some 6))) ≡ thread 1 (Some 5) }
{}

/// Which facts begin a session.
pub fn a_session_begins_with_its_first_fact()
    ensures born { begun_id (Some (Born session)) ≡ Some 3 }
    ensures opened { begun_id (Some (Opened session)) ≡ Some 3 }
    ensures started { begun_id (Some (Started (5 ∷ []) 2 3 (7 ∷ []))) ≡ None }
    ensures confirmed { begun_id (Some (Confirmed (5 ∷ []) 3)) ≡ None }
    ensures closed { begun_id (Some (Ended (5 ∷ []) 3 Near)) ≡ None }
    ensures idle { begun_id (Some (Ended (5 ∷ []) 3 Idle)) ≡ None }
    ensures other { begun_id None ≡ None }
{}

/// A session that begins took nothing, also where another one under its session ID did: a number
/// is taken once, but 0, and only by a session, and is used by a datagram of another mode too. The
/// largest moment counts.
pub fn a_session_that_begins_took_nothing()
    ensures nothing { last_in (Some (begun_in 4)) ≡ None }
    ensures generation { generation_in (Some (begun_in 4)) ≡ Some 4 }
    ensures once { takes_if 7 true (Some (begun_in 4)) ≡ true }
    ensures again { takes_if 7 true (Some (heard_by 7 9 true (begun_in 4))) ≡ false }
    ensures used { takes_if 7 true (Some (heard_by 7 9 false (begun_in 4))) ≡ false }
    ensures unfit { takes_if 7 false (Some (begun_in 4)) ≡ false }
    ensures zero { takes_if 0 true (Some (begun_in 4)) ≡ false }
    ensures none { takes_if 7 true None ≡ false }
    ensures last { last_in (Some (heard_by 7 9 true (begun_in 4))) ≡ Some 9 }
    ensures largest { last_in (Some (heard_by 8 5 true (heard_by 7 9 true (begun_in 4))))
        ≡ Some 9 }
    ensures anew { (c : KeptContexts) → get (with_session 3 (Some 4) c).sessions 3
        ≡ Some (begun_in 4) }
{}

/// Where no session begins and no keying goes out in startup, all stays.
pub fn other_entries_change_nothing()
    ensures confirmed { (c : KeptContexts) → stated (Confirmed (5 ∷ []) 3) (Some 4) c ≡ c }
    ensures ended { (c : KeptContexts) → stated (Ended (5 ∷ []) 3 Idle) (Some 4) c ≡ c }
    ensures untold { (c : KeptContexts) → stated (Born session) None c ≡ c }
    ensures inside { (c : KeptContexts) → sent_in (towards true) (3 ∷ []) c ≡ c }
    ensures none { (c : KeptContexts) → sent_in (InStartup 4) [] c ≡ c }
{}

/// An attempt takes datagrams in the generation of its keying, and before that in the current one;
/// a session in its own, also while it is closing.
pub fn each_thing_takes_datagrams_in_its_generation()
    ensures hello { held_in known None None (Some (Opening 2 3 (7 ∷ []))) ≡ Attempt 7 }
    ensures keyed { held_in known (Some 5) None (Some (Opening 2 3 (7 ∷ []))) ≡ Attempt 5 }
    ensures half { held_in known None (Some 6) (Some (HalfOpen session))
        ≡ Session (HalfOpen session) 6 }
    ensures born { held_in known None (Some 6) (Some (KeptAsResponder session))
        ≡ Session (KeptAsResponder session) 6 }
    ensures opened { held_in known (Some 5) (Some 6) (Some (KeptAsInitiator session))
        ≡ Session (KeptAsInitiator session) 6 }
    ensures nothing { held_in known (Some 5) (Some 6) None ≡ Nothing }
    ensures closing { closing_in (KeptAsInitiator session) (Some 6)
        ≡ Session (KeptAsInitiator session) 6 }
    ensures none { closing_in (Opening 2 3 (7 ∷ [])) (Some 6) ≡ Nothing }
{}

/// Attempts and searches are underway, and nothing else is. Of those with a tag the one with the
/// lowest session ID counts: one that is higher, or that has the tag and is over, is none of them.
pub fn the_lowest_with_a_tag_counts()
    ensures search { (roll : Rolled) →
        underway_in roll (Some (Searching (65 ∷ []) (1 ∷ []) (2 ∷ []) 9)) ≡ true }
    ensures attempt { is_attempt (Some (Opening 2 3 (7 ∷ []))) ≡ true }
    ensures half_open { is_attempt (Some (HalfOpen session)) ≡ false }
    ensures confirmed { is_attempt (Some (KeptAsResponder session)) ≡ false }
    ensures opened { is_attempt (Some (KeptAsInitiator session)) ≡ false }
    ensures closing { (roll : Rolled) → underway_in roll (Some (Closing (HalfOpen session) 9))
        ≡ false }
    ensures nothing { (roll : Rolled) → underway_in roll None ≡ false }
    ensures lower { (threads : ThreadTable) (d : Digested) → is_underway d 2 ≡ true →
        tag_at 2 threads ≡ Some (1 ∷ []) → IsLowest threads d (1 ∷ []) 3 → ⊥ }
    ensures itself { (threads : ThreadTable) (d : Digested) →
        ((other : ℕ) → tag_at other threads ≡ Some (1 ∷ []) → other ≡ 3) →
        IsLowest threads d (1 ∷ []) 3 }
    ensures over { (threads : ThreadTable) (d : Digested) →
        ((other : ℕ) → is_underway d other ≡ true → other ≡ 3) → IsLowest threads d (1 ∷ []) 3 }
    ensures none { (d : Digested) → IsLowest empty d (1 ∷ []) 3 }
{}

/// A tag is that of a session ID alone, until something begins with it under another one.
pub fn a_tag_of_two_session_ids_is_no_ones()
    ensures first { noted 3 None ≡ Some 3 }
    ensures again { noted 3 (Some (Some 3)) ≡ Some 3 }
    ensures another { noted 3 (Some (Some 4)) ≡ None }
    ensures more { noted 3 (Some None) ≡ None }
{}
