//! Each number of the rules at its edge, and the value beside it. The functions do nothing: the
//! contract of each states what the definitions that the other contracts cite are there. All
//! numbers are own but the units of a timestamp (RFC 7016 section 2.2.4).

ghost use Rattle.std.specs.Prelude.{◌≡◌, ◌∷◌, ◌++◌, ◌-◌, ◌^◌, ℕ, ◌+◌, List, [], true, false, Option, Some, None, length, replicate};
ghost use Rattle.rtmfp_forms.specs.Address.{AddressParts};
ghost use Rattle.rtmfp_packet.specs.declared.head.Mode.TheVariants.{Initiator as FromInitiator, Responder as FromResponder};
ghost use Rattle.crypto_profile.specs.declared.keys.Context.TheVariants.{Session as SessionContext};
ghost use Rattle.glare_core.specs.declared.facts.Joined.{Joined};
ghost use Rattle.session_core.specs.declared.stage.Stage.TheVariants.{Opening, Open, NearClose, FarLinger, Closed};
ghost use Rattle.session_core.specs.declared.stage.SessionDue.TheVariants.{Unconfirmed, Idle, Over, RepeatClose};
ghost use Rattle.session_core.specs.declared.stage.Role.{Role};
ghost use Rattle.session_core.specs.declared.stage.Role.TheVariants.{Initiator, Responder};
ghost use Rattle.session_core.specs.declared.stamps.Stamp.{Stamp};
ghost use Rattle.session_core.specs.declared.trips.RoundTrip.{RoundTrip};
ghost use Rattle.session_core.specs.Session.{SessionState, context_between, head_at, new_session, confirmed, first_stage, mode_of};
ghost use Rattle.session_core.specs.Closing.{closed_near, asked_to_close, close_answered, first_due, after_due, needs_keepalive, kept_alive};
ghost use Rattle.session_core.specs.Congestion.{first_congestion, grown, shrunk};
ghost use Rattle.session_core.specs.Stamps.{tick_of, echo_of, stamp_after};
ghost use Rattle.session_core.specs.Trips.{sample_of, trip_with, trip_after, resend_time};
ghost use Rattle.session_core.specs.Sealed.{number_bytes, seal_answer, sealed_part, after_seal};
ghost use Rattle.session_core.specs.Hearing.{is_session_number};
ghost use Rattle.session_core.specs.Edges.{stamp, trip, congestion, opening, closing, lingering, open_since, at_stage, sealed_before, HasBegun, IsHeadOf};

/// A timestamp counts 4 ms, modulo 65,536.
pub fn a_timestamp_counts_4_ms()
    ensures rest { tick_of 1003 ≡ 250 }
    ensures next { tick_of 1004 ≡ 251 }
    ensures last { tick_of 262143 ≡ 65535 }
    ensures round { tick_of 262144 ≡ 0 }
{}

/// A timestamp is echoed for less than 128,000 ms, with the time since it was taken, modulo 65,536.
pub fn an_echo_counts_on_for_128_seconds()
    ensures none { echo_of None 1000 ≡ None }
    ensures rest { echo_of (stamp 250 1000) 1003 ≡ Some 250 }
    ensures next { echo_of (stamp 250 1000) 1004 ≡ Some 251 }
    ensures round { echo_of (stamp 65535 1000) 1004 ≡ Some 0 }
    ensures last { echo_of (stamp 0 1000) 128999 ≡ Some 31999 }
    ensures over { echo_of (stamp 0 1000) 129000 ≡ None }
    ensures back { echo_of (stamp 250 1000) 900 ≡ Some 250 }
{}

/// The last timestamp is kept; a packet without one leaves it.
pub fn a_timestamp_stays_until_the_next()
    ensures none { (kept : Option Stamp) (moment : ℕ) → stamp_after kept None moment ≡ kept }
    ensures some { (kept : Option Stamp) (value moment : ℕ) →
        stamp_after kept (Some value) moment ≡ stamp value moment }
{}

/// An echo gives 4 ms for each unit from it to the moment's timestamp, modulo 65,536. Half of all
/// units are no sample.
pub fn a_sample_is_less_than_half_of_all_units()
    ensures none { sample_of None 1000 ≡ None }
    ensures same { sample_of (Some 250) 1003 ≡ Some 0 }
    ensures one { sample_of (Some 249) 1000 ≡ Some 4 }
    ensures round { sample_of (Some 65535) 0 ≡ Some 4 }
    ensures last { sample_of (Some 33019) 1000 ≡ Some 131068 }
    ensures half { sample_of (Some 33018) 1000 ≡ None }
    ensures ahead { sample_of (Some 251) 1000 ≡ None }
{}

/// The first sample is the smoothed time, and half of it the variation. Of a later one the smoothed
/// time takes an eighth and the variation a quarter, of its distance from the smoothed time before
/// it. Divisions drop the rest.
pub fn a_sample_is_smoothed()
    ensures first { trip_with None 101 ≡ trip 101 50 }
    ensures longer { trip_with (Some (trip 101 50)) 204 ≡ trip 113 63 }
    ensures shorter { trip_with (Some (trip 101 50)) 99 ≡ trip 100 38 }
    ensures without { (kept : Option RoundTrip) (moment : ℕ) → trip_after kept None moment ≡ kept }
    ensures ignored { (kept : Option RoundTrip) → trip_after kept (Some 33018) 1000 ≡ kept }
    ensures timed { trip_after (Some (trip 101 50)) (Some 199) 1000 ≡ Some (trip 113 63) }
{}

/// What was sent is sent again after the smoothed time, four variations and 200 ms, at least after
/// 250 and at most after 10,000 ms; before the first sample after 1,000 ms.
pub fn a_resend_time_is_within_its_limits()
    ensures first { resend_time None ≡ 1000 }
    ensures least { resend_time (Some (trip 0 0)) ≡ 250 }
    ensures below_least { resend_time (Some (trip 49 0)) ≡ 250 }
    ensures at_least { resend_time (Some (trip 50 0)) ≡ 250 }
    ensures above_least { resend_time (Some (trip 51 0)) ≡ 251 }
    ensures both { resend_time (Some (trip 100 25)) ≡ 400 }
    ensures below_most { resend_time (Some (trip 9799 0)) ≡ 9999 }
    ensures at_most { resend_time (Some (trip 9800 0)) ≡ 10000 }
    ensures above_most { resend_time (Some (trip 9801 0)) ≡ 10000 }
{}

/// The window begins at 4,380 bytes and grows to at most 1,048,576: by the bytes newly acknowledged
/// below the threshold, and by their thousandfold over the window from there on. The window before
/// decides.
pub fn a_window_grows_fast_below_its_threshold()
    ensures first { first_congestion ≡ congestion 4380 1048576 }
    ensures below { grown 1000 (congestion 5000 5001) ≡ congestion 6000 5001 }
    ensures at { grown 1000 (congestion 5000 5000) ≡ congestion 5200 5000 }
    ensures above { grown 1000 (congestion 5001 5000) ≡ congestion 5200 5000 }
    ensures none { grown 0 (congestion 5000 5001) ≡ congestion 5000 5001 }
    ensures below_most { grown 999 (congestion 1047576 1048576) ≡ congestion 1048575 1048576 }
    ensures most { grown 1000 (congestion 1047576 1048576) ≡ congestion 1048576 1048576 }
    ensures above_most { grown 1001 (congestion 1047576 1048576) ≡ congestion 1048576 1048576 }
    ensures slow_most { grown 1048576 (congestion 1048000 1048000) ≡ congestion 1048576 1048000 }
{}

/// A loss leaves half of the window as the threshold, at least 4,380 bytes, and as the window; a
/// loss by time leaves a window of 4,380 bytes.
pub fn a_loss_halves_the_window()
    ensures by_acks { shrunk false (congestion 1048576 1048576) ≡ congestion 524288 524288 }
    ensures at_least { shrunk false (congestion 8761 1048576) ≡ congestion 4380 4380 }
    ensures above_least { shrunk false (congestion 8762 1048576) ≡ congestion 4381 4381 }
    ensures below_least { shrunk false (congestion 4380 9000) ≡ congestion 4380 4380 }
    ensures by_time { shrunk true (congestion 1048576 1048576) ≡ congestion 4380 524288 }
    ensures by_time_least { shrunk true (congestion 8761 1048576) ≡ congestion 4380 4380 }
{}

/// A half-open session ends 20,000 ms after its birth, whatever it took.
pub fn a_half_open_session_ends_after_20_seconds()
    ensures before { (s : SessionState) → first_due (opening 1000 s) 20999 ≡ None }
    ensures at { (s : SessionState) → first_due (opening 1000 s) 21000 ≡ Some Unconfirmed }
    ensures after { (s : SessionState) (moment : ℕ) →
        (after_due (Some Unconfirmed) moment s) ≡ at_stage Closed s }
{}

/// An open session ends that took nothing for 120,000 ms, whatever it sent.
pub fn an_open_session_is_idle_after_120_seconds()
    ensures before { (s : SessionState) (last : Option ℕ) →
        first_due (open_since 1000 last s) 120999 ≡ None }
    ensures at { (s : SessionState) (last : Option ℕ) →
        first_due (open_since 1000 last s) 121000 ≡ Some Idle }
    ensures after { (s : SessionState) (moment : ℕ) →
        (after_due (Some Idle) moment s) ≡ at_stage Closed s }
{}

/// A close is sent again every 5,000 ms, and the session is over 90,000 ms after the first.
pub fn a_closing_session_is_over_after_90_seconds()
    ensures before_repeat { (s : SessionState) → first_due (closing 1000 1000 s) 5999 ≡ None }
    ensures repeat { (s : SessionState) → first_due (closing 1000 1000 s) 6000 ≡ Some RepeatClose }
    ensures repeat_again { (s : SessionState) → first_due (closing 1000 6000 s) 10999 ≡ None }
    ensures before_over { (s : SessionState) → first_due (closing 1000 86000 s) 90999 ≡ None }
    ensures over { (s : SessionState) → first_due (closing 1000 86000 s) 91000 ≡ Some Over }
    ensures repeated { (s : SessionState) → after_due (Some RepeatClose) 6000 (closing 1000 1000 s)
        ≡ closing 1000 6000 s }
    ensures after { (s : SessionState) (moment : ℕ) →
        (after_due (Some Over) moment s) ≡ at_stage Closed s }
{}

/// A session that the peer closed lingers for 19,000 ms. What is over stays so, and nothing is due
/// of it.
pub fn a_closed_session_lingers_for_19_seconds()
    ensures before { (s : SessionState) → first_due (lingering 1000 s) 19999 ≡ None }
    ensures at { (s : SessionState) → first_due (lingering 1000 s) 20000 ≡ Some Over }
    ensures over { (s : SessionState) (moment : ℕ) → first_due (at_stage Closed s) moment ≡ None }
    ensures unchanged { (s : SessionState) (moment : ℕ) → after_due None moment s ≡ s }
{}

/// A keepalive is due of an open session 10,000 ms after the last datagram taken and the last
/// keepalive. Opening counts as a datagram.
pub fn a_keepalive_is_due_after_10_seconds()
    ensures before { (s : SessionState) → needs_keepalive (open_since 1000 None s) 10999 ≡ false }
    ensures at { (s : SessionState) → needs_keepalive (open_since 1000 None s) 11000 ≡ true }
    ensures sent { (s : SessionState) → kept_alive 11000 (open_since 1000 None s)
        ≡ open_since 1000 (Some 11000) s }
    ensures before_next { (s : SessionState) →
        needs_keepalive (open_since 1000 (Some 11000) s) 20999 ≡ false }
    ensures next { (s : SessionState) → needs_keepalive (open_since 1000 (Some 11000) s) 21000
        ≡ true }
    ensures before_later { (s : SessionState) →
        needs_keepalive (open_since 15000 (Some 11000) s) 24999 ≡ false }
    ensures later { (s : SessionState) → needs_keepalive (open_since 15000 (Some 11000) s) 25000
        ≡ true }
    ensures half_open { (s : SessionState) (moment : ℕ) →
        needs_keepalive (at_stage Opening s) moment ≡ false }
    ensures closing { (s : SessionState) (moment : ℕ) →
        needs_keepalive (at_stage NearClose s) moment ≡ false }
    ensures lingering { (s : SessionState) (moment : ℕ) →
        needs_keepalive (at_stage FarLinger s) moment ≡ false }
    ensures over { (s : SessionState) (moment : ℕ) →
        needs_keepalive (at_stage Closed s) moment ≡ false }
{}

/// The number of a session's packet is 8 zero bytes and 8 bytes of its count, of which 2^64 - 1 is
/// the last.
pub fn a_number_begins_with_8_zero_bytes()
    ensures first { number_bytes 1 ≡ replicate 15 0 ++ 1 ∷ [] }
    ensures most { number_bytes (2 ^ 64 - 1) ≡ replicate 8 0 ++ replicate 8 255 }
    ensures zeros { is_session_number (replicate 8 0 ++ replicate 8 255) ≡ true }
    ensures first_byte { is_session_number (1 ∷ replicate 15 0) ≡ false }
    ensures eighth_byte { is_session_number (replicate 7 0 ++ 1 ∷ replicate 8 0) ≡ false }
    ensures last { (s : SessionState) (plain : List ℕ) →
        seal_answer (sealed_before (2 ^ 64 - 2) s) [] ≡ Some 36 }
    ensures none { (s : SessionState) (plain : List ℕ) →
        seal_answer (sealed_before (2 ^ 64 - 1) s) plain ≡ None }
    ensures longer { (s : SessionState) (plain : List ℕ) →
        length (sealed_part s plain) ≡ 32 + length plain }
    ensures counted { (s : SessionState) → after_seal (sealed_before (2 ^ 64 - 2) s)
        ≡ sealed_before (2 ^ 64 - 1) s }
{}

/// A new session is open at the initiator and half-open at the responder, in each generation. Its
/// birth counts as a datagram taken, and it has sent no close and no keepalive.
pub fn a_session_begins_open_at_the_initiator_alone()
    ensures initiator { first_stage Initiator ≡ Open }
    ensures responder { first_stage Responder ≡ Opening }
    ensures begun { (j : Joined) (own : List ℕ) (role : Role) (at : AddressParts)
        (generation : ℕ) (secret : List ℕ) →
        HasBegun 1000 (new_session j own role at generation secret 1000) }
{}

/// The first datagram confirms a half-open session, and no session again.
pub fn a_session_is_confirmed_where_it_is_half_open()
    ensures opening { (s : SessionState) → confirmed (at_stage Opening s) ≡ at_stage Open s }
    ensures open { (s : SessionState) → confirmed (at_stage Open s) ≡ at_stage Open s }
    ensures closing { (s : SessionState) → confirmed (at_stage NearClose s) ≡ at_stage NearClose s }
    ensures lingering { (s : SessionState) → confirmed (at_stage FarLinger s)
        ≡ at_stage FarLinger s }
    ensures over { (s : SessionState) → confirmed (at_stage Closed s) ≡ at_stage Closed s }
{}

/// A close begins at a half-open or an open session, and counts as sent. Any other session it
/// leaves.
pub fn a_close_ends_what_is_held()
    ensures opening { (s : SessionState) (moment : ℕ) →
        closed_near moment (at_stage Opening s) ≡ closing moment moment s }
    ensures open { (s : SessionState) (moment : ℕ) →
        closed_near moment (at_stage Open s) ≡ closing moment moment s }
    ensures closing { (s : SessionState) (moment : ℕ) →
        closed_near moment (at_stage NearClose s) ≡ at_stage NearClose s }
    ensures lingering { (s : SessionState) (moment : ℕ) →
        closed_near moment (at_stage FarLinger s) ≡ at_stage FarLinger s }
    ensures over { (s : SessionState) (moment : ℕ) →
        closed_near moment (at_stage Closed s) ≡ at_stage Closed s }
{}

/// The peer's close makes a session linger from that moment, also one that this end closes. What
/// lingers already goes on with its own moment.
pub fn a_close_of_the_peer_makes_linger()
    ensures opening { (s : SessionState) (moment : ℕ) →
        asked_to_close moment (at_stage Opening s) ≡ lingering moment s }
    ensures open { (s : SessionState) (moment : ℕ) →
        asked_to_close moment (at_stage Open s) ≡ lingering moment s }
    ensures closing { (s : SessionState) (moment : ℕ) →
        asked_to_close moment (at_stage NearClose s) ≡ lingering moment s }
    ensures lingering { (s : SessionState) (moment : ℕ) →
        asked_to_close moment (at_stage FarLinger s) ≡ at_stage FarLinger s }
    ensures over { (s : SessionState) (moment : ℕ) →
        asked_to_close moment (at_stage Closed s) ≡ at_stage Closed s }
{}

/// The peer's answer to a close ends what this end closes, and nothing else.
pub fn an_answered_close_is_over()
    ensures opening { (s : SessionState) → close_answered (at_stage Opening s)
        ≡ at_stage Opening s }
    ensures open { (s : SessionState) → close_answered (at_stage Open s) ≡ at_stage Open s }
    ensures closing { (s : SessionState) → close_answered (at_stage NearClose s)
        ≡ at_stage Closed s }
    ensures lingering { (s : SessionState) → close_answered (at_stage FarLinger s)
        ≡ at_stage FarLinger s }
    ensures over { (s : SessionState) → close_answered (at_stage Closed s) ≡ at_stage Closed s }
{}

/// A packet has neither time critical flag, the timestamp of its moment and the mode of its end.
pub fn a_head_has_its_stamp_and_mode()
    ensures initiator { mode_of Initiator ≡ FromInitiator }
    ensures responder { mode_of Responder ≡ FromResponder }
    ensures head { (s : SessionState) (moment : ℕ) → IsHeadOf s moment (head_at s moment) }
{}

/// Packets from the initiator are in the direction to the responder, and name the initiator's
/// values first at both ends.
pub fn a_context_names_the_initiator_first()
    ensures out { (generation : ℕ) (j : Joined) (own : List ℕ) →
        context_between generation j own Initiator true ≡ SessionContext generation j.ni j.nr own j.peer j.near j.far
        true }
    ensures back { (generation : ℕ) (j : Joined) (own : List ℕ) →
        context_between generation j own Initiator false ≡ SessionContext generation j.ni j.nr own j.peer j.near j.far
        false }
    ensures responder_out { (generation : ℕ) (j : Joined) (own : List ℕ) →
        context_between generation j own Responder true ≡ SessionContext generation j.ni j.nr j.peer own j.far j.near
        false }
    ensures responder_back { (generation : ℕ) (j : Joined) (own : List ℕ) →
        context_between generation j own Responder false ≡ SessionContext generation j.ni j.nr j.peer own j.far j.near
        true }
{}
