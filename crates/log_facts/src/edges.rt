//! What is asked of the datagram of an event at the edges. The functions do nothing: the contract
//! of each is a table. A fingerprint and a nonce are short lists of bytes here.

ghost use Rattle.std.specs.Prelude.{◌≡◌, ◌∷◌, [], true, false, Some, None, List};
ghost use Rattle.std.specs.Str.{bytes_eq};
ghost use Rattle.rtmfp_packet.specs.Walk.{Placed};
ghost use Rattle.glare_core.specs.declared.facts.Held.TheVariants.{HalfOpen, KeptAsInitiator, KeptAsResponder};
ghost use Rattle.endpoint_model.specs.Keying.{responder_part};
ghost use Rattle.log_digest.specs.declared.spot.Spot.TheVariants.{Holding, Closing};
ghost use Rattle.log_packets.specs.Opening.{is_sid};
ghost use Rattle.log_arrivals.specs.declared.arrival.Arrival.TheVariants.{Nowhere, Startup, Session};
ghost use Rattle.log_facts.specs.Coming.{IsSoughtBy, is_closing, is_in_session, sid_under, startup_at};
ghost use Rattle.log_facts.specs.Edges.{attempt, received, search, session};

/// A datagram of fewer than 36 bytes goes under no session ID, and what goes under one goes under
/// no other.
pub fn a_short_datagram_goes_under_no_session_id()
    ensures none { sid_under None ≡ None }
    ensures short { sid_under (received 35) ≡ None }
    ensures shortest { is_sid (sid_under (received 36)) 0 ≡ true }
    ensures other { is_sid (sid_under (received 36)) 1 ≡ false }
    ensures short_other { is_sid (sid_under (received 35)) 0 ≡ false }
{}

/// A datagram opens in a startup context, or in a session, or nowhere.
pub fn a_datagram_opens_in_one_place()
    ensures startup { startup_at (Startup 7) ≡ Some 7 }
    ensures session { startup_at Session ≡ None }
    ensures nowhere { startup_at Nowhere ≡ None }
    ensures in_session { is_in_session Session ≡ true }
    ensures in_startup { is_in_session (Startup 7) ≡ false }
    ensures in_none { is_in_session Nowhere ≡ false }
{}

/// An answer with another count of attempts isn't that of the session, nor is one with another
/// nonce.
pub fn an_answer_has_the_count_of_the_session()
    ensures same { bytes_eq (responder_part (8 ∷ []) 4 (5 ∷ []) (7 ∷ []))
        (responder_part session.nr session.k session.peer session.ni) ≡ true }
    ensures fewer { bytes_eq (responder_part (8 ∷ []) 3 (5 ∷ []) (7 ∷ []))
        (responder_part session.nr session.k session.peer session.ni) ≡ false }
    ensures more { bytes_eq (responder_part (8 ∷ []) 5 (5 ∷ []) (7 ∷ []))
        (responder_part session.nr session.k session.peer session.ni) ≡ false }
    ensures nonce { bytes_eq (responder_part (8 ∷ []) 4 (5 ∷ []) (6 ∷ []))
        (responder_part session.nr session.k session.peer session.ni) ≡ false }
{}

/// A session is closing, and neither an attempt nor what is held.
pub fn sessions_alone_are_closing()
    ensures half_open { is_closing (Some (Closing (HalfOpen session) 10)) ≡ true }
    ensures born { is_closing (Some (Closing (KeptAsResponder session) 10)) ≡ true }
    ensures opened { is_closing (Some (Closing (KeptAsInitiator session) 10)) ≡ true }
    ensures attempt { is_closing (Some (Closing attempt 10)) ≡ false }
    ensures held { is_closing (Some (Holding (5 ∷ []) 10)) ≡ false }
    ensures sought { is_closing (Some search) ≡ false }
    ensures nothing { is_closing None ≡ false }
{}

/// A hello starts no attempt where none is sought, and none with another nonce than the search's.
pub fn a_hello_answers_a_search()
    ensures other { (chunks : List Placed) →
        IsSoughtBy search (5 ∷ []) (8 ∷ []) chunks → ⊥ }
    ensures held { (chunks : List Placed) →
        IsSoughtBy (Holding (5 ∷ []) 10) (5 ∷ []) (7 ∷ []) chunks → ⊥ }
    ensures closing { (chunks : List Placed) →
        IsSoughtBy (Closing (HalfOpen session) 10) (5 ∷ []) (7 ∷ []) chunks → ⊥ }
{}
