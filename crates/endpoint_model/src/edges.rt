//! The rules of an end that no run comes to, at their edges and one beside. The functions do
//! nothing: the contract of each states what the definitions that the other contracts cite are
//! there. All of it is own.

ghost use Rattle.std.specs.Prelude.{◌≡◌, ◌∷◌, ◌++◌, ◌+◌, ◌-◌, ◌^◌, ℕ, List, [], false, true, Some, None, Ok, Err};
ghost use Rattle.std.specs.Prelude.{Bool, map, not};
ghost use Rattle.std.specs.FinMap.{get};
ghost use Rattle.rtmfp_base.specs.Reasons.{first_that_stands, where_true};
ghost use Rattle.rtmfp_chunks.specs.FieldReading.{chunk_reading};
ghost use Rattle.rtmfp_fragments.specs.declared.outcome.PieceRefusal.TheVariants.{Conflict, TooLong};
ghost use Rattle.rtmfp_fragments.specs.declared.outcome.PieceRefusal.TheVariants.{PacketsFull, TooMany};
ghost use Rattle.rtmfp_fragments.specs.Pieces.{PieceParts, piece, pieces_of};
ghost use Rattle.std.specs.Prelude.{length, replicate};
ghost use Rattle.rtmfp_forms.specs.Address.{AddressParts};
ghost use Rattle.rtmfp_chunks.specs.Chunk.{Close, FIHello, Fragment, RHello};
ghost use Rattle.rtmfp_chunks.specs.Writing.{chunk_bytes};
ghost use Rattle.crypto_profile.specs.declared.group.GroupSecret.{GroupSecret};
ghost use Rattle.crypto_profile.specs.declared.keys.Context.TheVariants.{Startup as StartupContext};
ghost use Rattle.crypto_profile.specs.Keys.{Keys, startup_keys_of};
ghost use Rattle.crypto_profile.specs.Sealing.{sealed_in};
ghost use Rattle.packet_scramble.specs.Datagram.{datagram};
ghost use Rattle.identity.specs.declared.discriminator.Epd.{Epd};
ghost use Rattle.glare_core.specs.declared.facts.Held.TheVariants.{HalfOpen, KeptAsInitiator};
ghost use Rattle.glare_core.specs.declared.facts.Held.TheVariants.{KeptAsResponder, Opening};
ghost use Rattle.glare_core.specs.declared.facts.Joined.{Joined};
ghost use Rattle.glare_core.specs.Ledger.{held_with};
ghost use Rattle.startup.specs.declared.answer.Answer.{Answer};
ghost use Rattle.startup.specs.declared.attempt.Stage.TheVariants.{Hello, Keying};
ghost use Rattle.startup.specs.Attempts.{after_rhello, rhello_fact};
ghost use Rattle.startup.specs.State.{AttemptState};
ghost use Rattle.rtmfp_packet.specs.Walk.{Placed};
ghost use Rattle.rtmfp_data_chunks.specs.Reader.{data_reading};
ghost use Rattle.rtmfp_base.specs.declared.cause.Cause.{Cause};
ghost use Rattle.rtmfp_base.specs.declared.cause.Cause.TheVariants.{NotSelected, UnknownSession, Wide};
ghost use Rattle.rtmfp_base.specs.declared.cause.Cause.TheVariants.{BadWhole, Piece, WrongPlace};
ghost use Rattle.rtmfp_base.specs.declared.cause.Cause.TheVariants.{WrongState};
ghost use Rattle.rtmfp_base.specs.declared.cause.Cause.TheVariants.{Fragment as StrayFragment};
ghost use Rattle.startup.specs.Redirects.{redirect_answer};
ghost use Rattle.session_core.specs.Session.{SessionState};
ghost use Rattle.endpoint_model.specs.declared.answers.OpenRefusal.TheVariants.{Candidates};
ghost use Rattle.endpoint_model.specs.declared.answers.SeekRefusal.TheVariants as seek;
ghost use Rattle.session_flows.specs.declared.refusal.CallRefusal.TheVariants.{GenerationsSpent};
ghost use Rattle.session_flows.specs.declared.refusal.CallRefusal.TheVariants.{NextKnown, NoNext};
ghost use Rattle.session_flows.specs.declared.refusal.CallRefusal.TheVariants.{SameSecret};
ghost use Rattle.endpoint_model.specs.declared.entry.Entry.TheVariants.{Advanced, Learnt, Out};
ghost use Rattle.endpoint_model.specs.declared.place.Place.{Place};
ghost use Rattle.endpoint_model.specs.declared.place.Place.TheVariants.{Attempt, Session, Startup};
ghost use Rattle.endpoint_model.specs.declared.row.Row.{Row};
ghost use Rattle.endpoint_model.specs.declared.walk.Walk.{Walk};
ghost use Rattle.endpoint_model.specs.Admission.{attempt_group, known_group, opened_at, opened_first};
ghost use Rattle.endpoint_model.specs.Admission.{packet_in, places_of};
ghost use Rattle.endpoint_model.specs.Causes.{chunk_cause, row_takes, takes_in};
ghost use Rattle.endpoint_model.specs.Gathering.{may_be_gathered, piece_cause, refused_piece};
ghost use Rattle.endpoint_model.specs.Gathering.{whole_cause};
ghost use Rattle.endpoint_model.specs.FlowChunks.{data_fault, is_of_flows};
ghost use Rattle.endpoint_model.specs.Effects.{Introduction, candidates_refusal, inset};
ghost use Rattle.endpoint_model.specs.Effects.{introduction, outset};
ghost use Rattle.endpoint_model.specs.Effects.{no_place, places_refusal, read_fact, read_left};
ghost use Rattle.endpoint_model.specs.Effects.{replied};
ghost use Rattle.endpoint_model.specs.InSessions.{sent_home};
ghost use Rattle.endpoint_model.specs.Introducing.{forwarded_to, hello_cause, introducing};
ghost use Rattle.endpoint_model.specs.Introducing.{kept_id, redirect_of, redirected_to};
ghost use Rattle.endpoint_model.specs.Sending.{sent_answer, sent_by, sent_each, sent_startup};
ghost use Rattle.endpoint_model.specs.Sending.{has_counts, is_long, limit_of, piece_body, pieces_for};
ghost use Rattle.endpoint_model.specs.Sending.{sent_bodies, sent_in_pieces, session_packet};
ghost use Rattle.endpoint_model.specs.Sending.{startup_datagram, startup_number};
ghost use Rattle.endpoint_model.specs.State.{State, is_free, new_row, next_id, nothing};
ghost use Rattle.endpoint_model.specs.State.{fresh, narrowing, with_row};
ghost use Rattle.endpoint_model.specs.State.{then_do, with_sealed, with_startup};
ghost use Rattle.endpoint_model.specs.Event.{Setup};
ghost use Rattle.endpoint_model.specs.Succession.{advance_refusal, advancing, learn_refusal};
ghost use Rattle.endpoint_model.specs.Succession.{learning};

/// A startup packet's number is the first 8 bytes of the fingerprint and the packet's count, of
/// which 2^64 - 1 is the last: then nothing goes out any more.
pub fn startup_packets_are_counted_to_the_end()
    ensures number { startup_number (replicate 8 7 ++ replicate 24 9) 258 ≡ replicate 8 7
        ++ replicate 6 0 ++ 1 ∷ 2 ∷ [] }
    ensures last { (s : State) (generation : ℕ) (keys : Keys) (to : AddressParts) (sid : ℕ)
        (plain : List ℕ) →
        (sent_startup (with_sealed s (2 ^ 64 - 2)) generation keys to sid plain).state
        ≡ with_sealed s (2 ^ 64 - 1) }
    ensures none { (s : State) (generation : ℕ) (keys : Keys) (to : AddressParts) (sid : ℕ)
        (plain : List ℕ) → sent_startup (with_sealed s (2 ^ 64 - 1)) generation keys to sid plain
        ≡ nothing (with_sealed s (2 ^ 64 - 1)) }
    ensures in_a_session { (s : State) (near : ℕ) (to : AddressParts) (body : List ℕ)
        (session : SessionState) →
        sent_by s near to body (Some (new_row (record session { sealed = 2 ^ 64 - 1 }))) ≡ nothing
        s }
{}

/// A session's packet goes out whole up to the limit, which is at first the longest that there is,
/// and above it in pieces of 32 bytes less, each as a fragment chunk with an ID that counts from 1.
/// Where an ID or one of the counts is lacking, no piece goes out.
pub fn a_longer_packet_goes_out_in_pieces()
    ensures at_first { (setup : Setup) → (fresh setup).limit ≡ 1164 }
    ensures whole { (s : State) (row : Row) (body : List ℕ) →
        length (session_packet row.session s.moment body) ≡ 532 →
        is_long (narrowing s 532) row body ≡ false }
    ensures longer { (s : State) (row : Row) (body : List ℕ) →
        length (session_packet row.session s.moment body) ≡ 533 →
        is_long (narrowing s 532) row body ≡ true }
    ensures size { (s : State) (plain : List ℕ) → pieces_for (narrowing s 532) plain
        ≡ pieces_of plain 500 }
    ensures least { (s : State) (plain : List ℕ) → pieces_for (narrowing s 96) plain
        ≡ pieces_of plain 64 }
    ensures below { (s : State) (plain : List ℕ) → pieces_for (narrowing s 95) plain
        ≡ pieces_of plain 64 }
    ensures most { (s : State) → limit_of (narrowing s 1164) ≡ 1164 }
    ensures above { (s : State) → limit_of (narrowing s 1165) ≡ 1164 }
    ensures more { piece_body 258 (piece 1 true (7 ∷ []))
        ≡ 0x7f ∷ 0 ∷ 5 ∷ 0x80 ∷ 0x82 ∷ 2 ∷ 1 ∷ 7 ∷ [] }
    ensures first { (s : State) (near : ℕ) (to : AddressParts) (row : Row) →
        row.packets ≡ 0 → row.session.sealed ≡ 0 →
        sent_in_pieces s near to row (piece 0 false (7 ∷ []) ∷ [])
        ≡ then_do (nothing (with_row s near (record row { packets = 1 })))
        (λ t. sent_bodies t near to ((0x7f ∷ 0 ∷ 4 ∷ 0 ∷ 1 ∷ 0 ∷ 7 ∷ []) ∷ [])) }
    ensures last_counts { (session : SessionState) →
        has_counts (new_row (record session { sealed = 2 ^ 64 - 4 })) 3 ≡ true }
    ensures one_lacks { (session : SessionState) →
        has_counts (new_row (record session { sealed = 2 ^ 64 - 3 })) 3 ≡ false }
    ensures last_id { (row : Row) → row.session.sealed ≡ 0 →
        has_counts (record row { packets = 2 ^ 64 - 2 }) 3 ≡ true }
    ensures no_id { (row : Row) → row.session.sealed ≡ 0 →
        has_counts (record row { packets = 2 ^ 64 - 1 }) 3 ≡ false }
    ensures none { (s : State) (near : ℕ) (to : AddressParts) (row : Row)
        (pieces : List PieceParts) → has_counts row (length pieces) ≡ false →
        sent_in_pieces s near to row pieces ≡ nothing s }
{}

/// The session ID after 2^32 - 1 is 0, which no session has.
pub fn session_ids_go_round()
    ensures next { next_id 7 ≡ 8 }
    ensures round { next_id 4294967295 ≡ 0 }
    ensures zero { (s : State) → is_free s 0 ≡ false }
{}

/// An attempt has 1 to 16 candidates.
pub fn an_attempt_has_1_to_16_candidates()
    ensures none { candidates_refusal 0 ≡ Some (Candidates 0) }
    ensures least { candidates_refusal 1 ≡ None }
    ensures most { candidates_refusal 16 ≡ None }
    ensures more { candidates_refusal 17 ≡ Some (Candidates 17) }
{}

/// A search has 1 to 16 candidates, and counts as one of the attempts and sessions that may be.
pub fn a_search_has_1_to_16_candidates()
    ensures none { places_refusal 0 ≡ Some (seek.Candidates 0) }
    ensures least { places_refusal 1 ≡ None }
    ensures most { places_refusal 16 ≡ None }
    ensures more { places_refusal 17 ≡ Some (seek.Candidates 17) }
    ensures room { no_place None ≡ None }
    ensures full { (limit : ℕ) → no_place (Some limit) ≡ Some (seek.SessionsFull limit) }
{}

/// A hello is forwarded in a session that is kept, and in no attempt and no half-open session; and
/// only by an end that introduces.
pub fn a_hello_is_forwarded_in_a_kept_session()
    ensures none { kept_id None ≡ None }
    ensures opening { (n near : ℕ) (ni : List ℕ) → kept_id (Some (Opening n near ni)) ≡ None }
    ensures half_open { (j : Joined) → kept_id (Some (HalfOpen j)) ≡ None }
    ensures responder { (j : Joined) → kept_id (Some (KeptAsResponder j)) ≡ Some j.near }
    ensures initiator { (j : Joined) → kept_id (Some (KeptAsInitiator j)) ≡ Some j.near }
    ensures silent { (s : State) (print : List ℕ) →
        forwarded_to (record s { introduces = false }) print ≡ None }
    ensures introducing { (s : State) (print : List ℕ) → forwarded_to (introducing s) print
        ≡ kept_id (held_with s.startup.ledger print) }
{}

/// A hello isn't answered for its wide tag first, and then for its discriminator. What is forwarded
/// has the address that the hello came from as one that was observed, and goes out before the
/// redirect; there is a redirect whether or not the hello was forwarded.
pub fn a_hello_is_forwarded_and_then_answered()
    ensures wide { (s : State) (epd : List ℕ) → hello_cause s epd (replicate 129 0)
        ≡ Some (Wide 129) }
    ensures nobody { (s : State) → hello_cause s [] (replicate 128 0) ≡ Some NotSelected }
    ensures observed { (s : State) (e : Epd) (epd tag : List ℕ) (from : AddressParts)
        (g : GroupSecret) →
        introduction s (Some e) epd tag from g ≡ Introduction (forwarded_to s e.print)
        (chunk_bytes (FIHello epd (record from { origin = 2 }) tag))
        (redirect_of tag from (redirected_to s e.print) g) }
    ensures row { (tag : List ℕ) (from : AddressParts) (addresses : List AddressParts)
        (g : GroupSecret) →
        redirect_of tag from (Some addresses) g ≡ Some (redirect_answer tag addresses from g) }
    ensures redirect_alone { (s : State) (place : Place) (from : AddressParts) (body : List ℕ)
        (answer : Answer) → replied s place from (Introduction None body (Some answer))
        ≡ sent_answer s answer }
    ensures both { (s : State) (place : Place) (from : AddressParts) (near : ℕ) (body : List ℕ)
        (answer : Answer) → replied s place from (Introduction (Some near) body (Some answer))
        ≡ then_do (sent_home s near body) (λ t. sent_answer t answer) }
{}

/// A chunk of flows that can be read is in the wrong place outside a session.
pub fn flows_are_in_sessions_alone()
    ensures attempt { (s : State) (walk : Walk) (from : AddressParts) (c : Placed)
        (near generation : ℕ) → is_of_flows c.kind ≡ true →
        data_fault (data_reading walk.cursor c.kind c.payload) ≡ None →
        chunk_cause s (Attempt near generation) walk from c ≡ Some WrongPlace }
    ensures startup { (s : State) (walk : Walk) (from : AddressParts) (c : Placed)
        (generation : ℕ) → is_of_flows c.kind ≡ true →
        data_fault (data_reading walk.cursor c.kind c.payload) ≡ None →
        chunk_cause s (Startup generation) walk from c ≡ Some WrongPlace }
{}

/// A fragment that can be read is stray outside a session and in a packet that was gathered, and in
/// a session it is judged by what the session holds.
pub fn pieces_are_in_sessions_alone()
    ensures attempt { (s : State) (walk : Walk) (from : AddressParts) (near generation at : ℕ)
        (more : Bool) (id number : ℕ) (payload bytes : List ℕ) →
        chunk_reading 0x7f payload ≡ Ok (Fragment more id number bytes) →
        chunk_cause s (Attempt near generation) walk from (record { kind = 0x7f; at = at; payload = payload })
        ≡ Some StrayFragment }
    ensures startup { (s : State) (walk : Walk) (from : AddressParts) (generation at : ℕ)
        (more : Bool) (id number : ℕ) (payload bytes : List ℕ) →
        chunk_reading 0x7f payload ≡ Ok (Fragment more id number bytes) →
        chunk_cause s (Startup generation) walk from (record { kind = 0x7f; at = at; payload = payload })
        ≡ Some StrayFragment }
    ensures gathered { (s : State) (from : AddressParts) (near at : ℕ) (more : Bool)
        (id number : ℕ) (payload bytes : List ℕ) →
        chunk_reading 0x7f payload ≡ Ok (Fragment more id number bytes) →
        chunk_cause s (Session near) inset from (record { kind = 0x7f; at = at; payload = payload }) ≡ Some StrayFragment }
    ensures session { (s : State) (from : AddressParts) (near at : ℕ) (more : Bool)
        (id number : ℕ) (payload bytes : List ℕ) →
        chunk_reading 0x7f payload ≡ Ok (Fragment more id number bytes) →
        chunk_cause s (Session near) outset from (record { kind = 0x7f; at = at; payload = payload })
        ≡ first_that_stands (where_true (not (row_takes (get s.sessions near) 0x7f)) WrongState
        ∷ piece_cause s.moment (get s.sessions near) id (piece number more bytes) ∷ []) }
{}

/// In a packet that was gathered pings, their answers and the chunks of flows are taken, and none of
/// the others.
pub fn what_may_be_gathered()
    ensures pings { may_be_gathered 0x01 ≡ true }
    ensures replies { may_be_gathered 0x41 ≡ true }
    ensures flows { map may_be_gathered (0x10 ∷ 0x11 ∷ 0x50 ∷ 0x51 ∷ 0x18 ∷ 0x5e ∷ [])
        ≡ true ∷ true ∷ true ∷ true ∷ true ∷ true ∷ [] }
    ensures closes { map may_be_gathered (0x0c ∷ 0x4c ∷ []) ≡ false ∷ false ∷ [] }
    ensures startup { map may_be_gathered
        (0x30 ∷ 0x0f ∷ 0x70 ∷ 0x71 ∷ 0x79 ∷ 0x38 ∷ 0x78 ∷ 0x7f ∷ [])
        ≡ false ∷ false ∷ false ∷ false ∷ false ∷ false ∷ false ∷ false ∷ [] }
    ensures close { (s : State) (from : AddressParts) (near at : ℕ) (payload : List ℕ) →
        chunk_reading 0x0c payload ≡ Ok Close →
        chunk_cause s (Session near) inset from
        (record { kind = 0x0c; at = at; payload = payload }) ≡ Some WrongPlace }
    ensures outside { takes_in (Session 6) outset 0x0c ≡ true }
{}

/// The refusals of a piece have the numbers 1 to 4, and tell the number, the bytes or the packets. A
/// packet that can't be read has the number of its fault, and one of another mode 4.
pub fn refusals_of_pieces_have_numbers()
    ensures many { refused_piece (TooMany 64) ≡ Piece 1 64 }
    ensures conflict { refused_piece (Conflict 3) ≡ Piece 2 3 }
    ensures long { refused_piece (TooLong 4096) ≡ Piece 3 4096 }
    ensures full { refused_piece (PacketsFull 4) ≡ Piece 4 4 }
    ensures empty { (s : State) (near : ℕ) →
        whole_cause s near (packet_in []) ≡ Some (BadWhole 1) }
    ensures zero { (s : State) (near : ℕ) →
        whole_cause s near (packet_in (4 ∷ [])) ≡ Some (BadWhole 2) }
    ensures stamp { (s : State) (near : ℕ) →
        whole_cause s near (packet_in (9 ∷ 0 ∷ [])) ≡ Some (BadWhole 3) }
    ensures mode { (s : State) (near : ℕ) (row : Row) → get s.sessions near ≡ Some row →
        whole_cause s near (packet_in (3 ∷ [])) ≡ Some (BadWhole 4) }
{}

/// A datagram under session ID 0 is tried in the current generation, and then in the next one where
/// that is known. One under an attempt's session ID is tried in the attempt's generation alone: the
/// current one while it sends hellos, and its own in the keying stage.
pub fn the_current_generation_is_tried_first()
    ensures alone { (s : State) → places_of (record s { next = None }) 0
        ≡ Startup s.group.generation ∷ [] }
    ensures both { (s : State) (next : GroupSecret) → places_of (record s { next = Some next }) 0
        ≡ Startup s.group.generation ∷ Startup next.generation ∷ [] }
    ensures hello { (current : GroupSecret) (a : AttemptState) →
        attempt_group current (Some (record a { stage = Hello })) ≡ current }
    ensures keying { (current under : GroupSecret) (a : AttemptState) (at : AddressParts)
        (cookie : List ℕ) →
        attempt_group current (Some (record a { stage = Keying at cookie under })) ≡ under }
    ensures none { (current : GroupSecret) → attempt_group current None ≡ current }
{}

/// The group's secret of a startup place is that of its generation: the next one where it has that
/// number, and the current one else.
pub fn a_generation_names_its_secret()
    ensures next { (current : GroupSecret) (secret : List ℕ) →
        known_group 8 (Some (record { generation = 8; secret = secret })) current
        ≡ record { generation = 8; secret = secret } }
    ensures current { (current : GroupSecret) (secret : List ℕ) →
        known_group 7 (Some (record { generation = 8; secret = secret })) current ≡ current }
    ensures alone { (current : GroupSecret) (generation : ℕ) →
        known_group generation None current ≡ current }
{}

/// A part opens at the first place that opens it. Where none does, the last one tells why; where
/// there is no place, no session is known.
pub fn a_part_opens_at_the_first_place_that_opens_it()
    ensures first { (s : State) (cause : Cause) (a b : Place) (part plain : List ℕ) →
        opened_at s a part ≡ Ok plain → opened_first s cause (a ∷ b ∷ []) part ≡ Ok (a, plain) }
    ensures second { (s : State) (cause why : Cause) (a b : Place) (part plain : List ℕ) →
        opened_at s a part ≡ Err why → opened_at s b part ≡ Ok plain →
        opened_first s cause (a ∷ b ∷ []) part ≡ Ok (b, plain) }
    ensures nowhere { (s : State) (cause why last : Cause) (a b : Place) (part : List ℕ) →
        opened_at s a part ≡ Err why → opened_at s b part ≡ Err last →
        opened_first s cause (a ∷ b ∷ []) part ≡ Err last }
    ensures no_place { (s : State) (part : List ℕ) →
        opened_first s UnknownSession [] part ≡ Err UnknownSession }
{}

/// Hellos go out in the current generation, and an answer in the one that it tells, under the keys
/// that it tells.
pub fn an_answer_goes_out_in_its_own_generation()
    ensures hello { (s : State) (plain : List ℕ) (to : AddressParts) →
        (sent_each (with_sealed s 0) plain (to ∷ [])).entries
        ≡ Out to (startup_datagram (with_sealed s 0) (startup_keys_of s.group) 0 plain)
        (StartupContext s.group.generation) ∷ [] }
    ensures answer { (s : State) (answer : Answer) →
        (sent_answer (with_sealed s 0) answer).entries
        ≡ Out answer.to (startup_datagram (with_sealed s 0) answer.keys answer.sid answer.plain)
        (StartupContext answer.generation) ∷ [] }
    ensures sealed { (s : State) (g : GroupSecret) (sid : ℕ) (plain : List ℕ) →
        startup_datagram s (startup_keys_of g) sid plain ≡ datagram sid
        (sealed_in g.secret (StartupContext g.generation) sid
        (startup_number s.startup.ledger.own (s.sealed + 1)) plain) }
{}

/// A secret isn't learnt where a next one is known, then where the current generation is the last
/// one, 2^64 - 1, and then where it is the current secret. The next generation has the number after
/// the current one.
pub fn a_learn_is_refused_in_this_order()
    ensures known { (s : State) (secret : List ℕ) (next : GroupSecret) →
        learn_refusal (record s {
          group = record { generation = 2 ^ 64 - 1; secret = secret };
          next = Some next;
        }) secret ≡ Some (NextKnown next.generation) }
    ensures spent { (s : State) → learn_refusal (record s {
      group = record { generation = 2 ^ 64 - 1; secret = replicate 32 7 };
      next = None;
    }) (replicate 32 7) ≡ Some GenerationsSpent }
    ensures same { (s : State) → learn_refusal (record s {
      group = record { generation = 2 ^ 64 - 2; secret = replicate 32 7 };
      next = None;
    }) (replicate 32 7) ≡ Some SameSecret }
    ensures none { (s : State) → learn_refusal (record s {
      group = record { generation = 2 ^ 64 - 2; secret = replicate 32 7 };
      next = None;
    }) (replicate 31 7 ++ 8 ∷ []) ≡ None }
    ensures learnt { (s : State) (current secret : List ℕ) →
        learning (record s { group = record { generation = 7; secret = current } }) secret
        ≡ record {
          state = record s {
            group = record { generation = 7; secret = current };
            next = Some (record { generation = 8; secret = secret });
          };
          entries = Learnt 8 ∷ [];
        } }
{}

/// An end goes over to the next generation where one is known: that is the current one then, and
/// none is known after it.
pub fn an_end_goes_over_to_the_next_generation()
    ensures none { (s : State) → advance_refusal (record s { next = None }) ≡ Some NoNext }
    ensures known { (s : State) (next : GroupSecret) →
        advance_refusal (record s { next = Some next }) ≡ None }
    ensures over { (s : State) (next : GroupSecret) → advancing (record s { next = Some next })
        ≡ record {
          state = record s { group = next; next = None };
          entries = Advanced next.generation ∷ [];
        } }
{}

/// A responder's hello that comes once no count of a startup packet is left, so that no keying can
/// go out, states nothing and leaves all as it was. With one left it isn't so.
pub fn a_hello_changes_nothing_once_no_count_is_left()
    ensures left { (s : State) (place : Place) (from : AddressParts) (tag cookie cert : List ℕ) →
        read_left (with_sealed s (2 ^ 64 - 1)) place from (Ok (RHello tag cookie cert))
        ≡ with_sealed s (2 ^ 64 - 1) }
    ensures fact { (s : State) (tag cookie cert : List ℕ) →
        read_fact (with_sealed s (2 ^ 64 - 1)) (Ok (RHello tag cookie cert)) ≡ None }
    ensures last_left { (s : State) (generation : ℕ) (from : AddressParts)
        (tag cookie cert : List ℕ) →
        read_left (with_sealed s (2 ^ 64 - 2)) (Startup generation) from
        (Ok (RHello tag cookie cert)) ≡ with_startup (with_sealed s (2 ^ 64 - 2))
        (after_rhello s.startup tag cookie cert from s.moment
        (known_group generation s.next s.group)) }
    ensures last_fact { (s : State) (tag cookie cert : List ℕ) →
        read_fact (with_sealed s (2 ^ 64 - 2)) (Ok (RHello tag cookie cert))
        ≡ rhello_fact s.startup tag cert }
{}
