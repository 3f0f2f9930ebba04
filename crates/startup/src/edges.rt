//! The rules of attempts and keyings at their edges and one beside, and the order of causes. The
//! functions do nothing: the contract of each states what the definitions that the other contracts
//! cite are there. All numbers are own.

ghost use Rattle.std.specs.Prelude.{◌≡◌, ◌∷◌, ◌++◌, ◌+◌, ℕ, List, [], true, false, Option, Some, None, Err, is_none, length, replicate};
ghost use Rattle.std.specs.Str.{bytes_eq};
ghost use Rattle.std.specs.FinMap.{entries, get};
ghost use Rattle.crypto_profile.specs.declared.group.GroupSecret.{GroupSecret};
ghost use Rattle.crypto_profile.specs.Keys.{sign_key_of, startup_keys_of};
ghost use Rattle.rtmfp_forms.specs.Address.{AddressParts};
ghost use Rattle.sha2.specs.Sha256.{sha256};
ghost use Rattle.cookies.specs.declared.CookieTest.TheVariants.{Bad, Moved, Expired, Current};
ghost use Rattle.cookies.specs.Cookie.{cookie_of, cookie_test};
ghost use Rattle.glare_core.specs.Calls.{hear_refusal};
ghost use Rattle.glare_core.specs.declared.answers.HearRefusal.TheVariants.{SessionsFull};
ghost use Rattle.glare_core.specs.declared.facts.Joined.{Joined};
ghost use Rattle.glare_core.specs.declared.facts.Fact.TheVariants.{Ended};
ghost use Rattle.glare_core.specs.declared.facts.Why.TheVariants.{Expired as LastedTooLong};
ghost use Rattle.startup.specs.declared.aim.Aim.{Aim};
ghost use Rattle.startup.specs.declared.aim.Aim.TheVariants.{AtPeer};
ghost use Rattle.startup.specs.declared.attempt.Stage.TheVariants.{Hello, Keying};
ghost use Rattle.rtmfp_base.specs.declared.cause.Cause.{Cause};
ghost use Rattle.rtmfp_base.specs.declared.cause.Cause.TheVariants.{BadCookie, BadSignature, CandidatesFull, Malformed, NoAttempt, OwnCertificate, SessionsFull as CauseFull, Wide, WrongPeer, WrongResponder, WrongState};
ghost use Rattle.startup.specs.declared.answer.Due.TheVariants.{Ended as EndDue, Hello as HelloDue, Keying as KeyingDue};
ghost use Rattle.startup.specs.State.{AttemptState, Attempts, StartupState};
ghost use Rattle.startup.specs.Attempts.{after_answer, after_change, answered, begun_attempt, change_cause_among, changed, has_tag, hello_cause, rhello_cause, is_own, keying_under, lowest, distinct_candidates, recookied, wide, with_attempt, without_attempt};
ghost use Rattle.startup.specs.Due.{after_due_of, due_of, gap_of, is_over, is_repeat_due, repeat_under, repeated, sends};
ghost use Rattle.startup_packets.specs.Readings.{InitiatorKeying, ResponderKeying};
ghost use Rattle.startup.specs.Keyings.{attempt_cause, change_answer, cookie_cause, heard_cause, initiator_cause, initiator_hello_answer, keying_of, named_cause, responder_cause, session_answer};
ghost use Rattle.startup.specs.Refusals.{rhello_refusal_with};
ghost use Rattle.startup_packets.specs.Packets.{cookiechange_packet, ihello_packet, iikeying_signed, is_signed, rhello_packet, rikeying_packet};
ghost use Rattle.startup.specs.Redirects.{after_extension, extended, full_cause, new_candidates, or_source, redirect_cause_among, redirect_cause_at, redirect_spread_of, told_addresses};
ghost use Rattle.startup.specs.Edges.{v4, timed, towards, in_hello, in_keying, AreTwo};

/// What isn't answered is sent again after 1,000, 1,500, 2,250, 3,375 and 5,062 ms, and then after
/// 5,062 ms each, counted from the last sending.
pub fn a_repeat_is_due_after_its_gap()
    ensures gaps { gap_of 0 ∷ gap_of 1 ∷ gap_of 2 ∷ gap_of 3 ∷ gap_of 4 ∷ []
        ≡ 1000 ∷ 1500 ∷ 2250 ∷ 3375 ∷ 5062 ∷ [] }
    ensures before_first { (a : AttemptState) → is_repeat_due 1999 (timed 0 1000 0 a) ≡ false }
    ensures first { (a : AttemptState) → is_repeat_due 2000 (timed 0 1000 0 a) ≡ true }
    ensures before_second { (a : AttemptState) → is_repeat_due 2499 (timed 0 1000 1 a) ≡ false }
    ensures second { (a : AttemptState) → is_repeat_due 2500 (timed 0 1000 1 a) ≡ true }
    ensures before_last { (a : AttemptState) → is_repeat_due 6061 (timed 0 1000 4 a) ≡ false }
    ensures last { (a : AttemptState) → is_repeat_due 6062 (timed 0 1000 4 a) ≡ true }
    ensures counted { (a : AttemptState) → repeated (timed 0 1000 0 a) 2000 ≡ timed 0 2000 1 a }
    ensures fourth { (a : AttemptState) → repeated (timed 0 1000 3 a) 5000 ≡ timed 0 5000 4 a }
    ensures stays { (a : AttemptState) → repeated (timed 0 1000 4 a) 7000 ≡ timed 0 7000 4 a }
{}

/// An attempt ends 95,000 ms after its start; its end comes before its repeat.
pub fn an_attempt_is_over_after_95_seconds()
    ensures before { (a : AttemptState) → is_over 95999 (timed 1000 90000 4 a) ≡ false }
    ensures over { (a : AttemptState) → is_over 96000 (timed 1000 90000 4 a) ≡ true }
    ensures last_repeat { (s : StartupState) (a : AttemptState) (peer : List ℕ) (n : ℕ) →
        due_of s 95999 (Some (5, towards peer n (in_hello (timed 1000 90000 4 a))))
        ≡ Some (HelloDue (record { to = a.candidates; plain = ihello_packet (1 ∷ peer) a.tag })) }
    ensures end { (s : StartupState) (a : AttemptState) (peer : List ℕ) (n : ℕ) →
        due_of s 96000 (Some (5, towards peer n (in_hello (timed 1000 90000 4 a))))
        ≡ Some (EndDue (Ended peer 5 LastedTooLong)) }
    ensures after_end { (s : StartupState) (a : AttemptState) (peer : List ℕ) (n : ℕ) →
        after_due_of s 96000 (Some (5, towards peer n (timed 1000 90000 4 a)))
        ≡ without_attempt s 5 (Ended peer 5 LastedTooLong) }
    ensures after_repeat { (s : StartupState) (a : AttemptState) →
        after_due_of s 95999 (Some (5, timed 1000 90000 4 a))
        ≡ with_attempt s 5 (timed 1000 95999 4 a) }
    ensures nothing_sent { (a : AttemptState) → sends 96000 (timed 1000 90000 4 a) ≡ 0 }
{}

/// Hellos are repeated to all candidates, in their order, and a keying to the address that
/// answered.
pub fn a_repeat_goes_to_all_candidates()
    ensures hello { (cert : List ℕ) (near : ℕ) (a : AttemptState) (peer : List ℕ) (n : ℕ) →
        repeat_under cert near (towards peer n a) Hello ≡ HelloDue
        (record { to = a.candidates; plain = ihello_packet (1 ∷ peer) a.tag }) }
    ensures keying { (cert : List ℕ) (near : ℕ) (a : AttemptState) (at : AddressParts)
        (cookie : List ℕ) (g : GroupSecret) → repeat_under cert near a (Keying at cookie g)
        ≡ KeyingDue (keying_under g cert near a at cookie) }
    ensures places { distinct_candidates (v4 0 2 ∷ v4 0 1 ∷ v4 0 2 ∷ v4 2 1 ∷ v4 0 3 ∷ [])
        ≡ v4 0 2 ∷ v4 0 1 ∷ v4 0 3 ∷ [] }
    ensures two { (a : AttemptState) →
        sends 1000 (in_hello (record (timed 0 0 0 a) { candidates = v4 0 1 ∷ v4 0 2 ∷ [] })) ≡ 2 }
    ensures one { (a : AttemptState) (at : AddressParts) (cookie : List ℕ) (g : GroupSecret) →
        sends 1000
        (in_keying at cookie g (record (timed 0 0 0 a) { candidates = v4 0 1 ∷ v4 0 2 ∷ [] })) ≡ 1 }
{}

/// An attempt begins with its hello as its last sending, and its number is one more than that of
/// the last.
pub fn an_attempt_begins_with_its_hello()
    ensures begun { (s : StartupState) (peer ni tag : List ℕ) →
        begun_attempt s peer (v4 0 1 ∷ v4 2 1 ∷ []) ni tag 1000
        ≡ record {
          aim = AtPeer peer (s.ledger.started + 1);
          ni = ni;
          tag = tag;
          start = 1000;
          candidates = v4 0 1 ∷ [];
          stage = Hello;
          last = 1000;
          gap = 0;
        } }
{}

/// An answer begins the keying stage: its gaps begin anew at 1,000 ms, and the attempt lasts as
/// long as before.
pub fn the_keying_stage_begins_again_at_the_first_gap()
    ensures kept { (s : StartupState) (a : AttemptState) (print peer : List ℕ) (n : ℕ)
        (from : AddressParts) (cookie : List ℕ) (moment : ℕ) (g : GroupSecret) →
        after_answer s print (Some (5, towards peer n a)) from cookie moment g
        ≡ with_attempt s 5 (answered (towards peer n a) from cookie moment g) }
    ensures answered { (a : AttemptState) (from : AddressParts) (cookie : List ℕ)
        (g : GroupSecret) → answered (in_hello (timed 0 1000 3 a)) from cookie 3000 g
        ≡ in_keying from cookie g (timed 0 3000 0 a) }
    ensures before { (a : AttemptState) (from : AddressParts) (cookie : List ℕ)
        (g : GroupSecret) →
        is_repeat_due 3999 (answered (timed 0 1000 3 a) from cookie 3000 g) ≡ false }
    ensures again { (a : AttemptState) (from : AddressParts) (cookie : List ℕ)
        (g : GroupSecret) →
        is_repeat_due 4000 (answered (timed 0 1000 3 a) from cookie 3000 g) ≡ true }
{}

/// A change of a cookie counts as a sending, and leaves the gap as it was: only a repeat goes on to
/// the next one.
pub fn a_change_of_a_cookie_counts_as_a_sending()
    ensures kept { (s : StartupState) (a : AttemptState) (cookie : List ℕ) (moment : ℕ) →
        after_change s (Some (5, a)) cookie moment ≡ with_attempt s 5 (recookied a cookie moment) }
    ensures changed { (a : AttemptState) (at : AddressParts) (old new : List ℕ)
        (g : GroupSecret) → recookied (in_keying at old g (timed 0 1000 2 a)) new 3000
        ≡ in_keying at new g (timed 0 3000 2 a) }
    ensures before { (a : AttemptState) (at : AddressParts) (old new : List ℕ)
        (g : GroupSecret) →
        is_repeat_due 5249 (recookied (in_keying at old g (timed 0 1000 2 a)) new 3000) ≡ false }
    ensures again { (a : AttemptState) (at : AddressParts) (old new : List ℕ)
        (g : GroupSecret) →
        is_repeat_due 5250 (recookied (in_keying at old g (timed 0 1000 2 a)) new 3000) ≡ true }
{}

/// A redirect adds those of its addresses that aren't candidates yet, each place once, in their
/// order; one without addresses tells the address that it came from.
#[tactic(auto, unfolding(rtmfp_chunks::specs::FieldReading::addresses_in, rtmfp_chunks::specs::FieldReading::first_addresses))]
pub fn a_redirect_adds_new_places()
    ensures new { new_candidates (v4 0 1 ∷ v4 0 2 ∷ [])
        (v4 0 3 ∷ v4 2 1 ∷ v4 0 4 ∷ v4 1 3 ∷ [])
        ≡ v4 0 3 ∷ v4 0 4 ∷ [] }
    ensures known { new_candidates (v4 0 1 ∷ []) (v4 2 1 ∷ v4 0 1 ∷ []) ≡ [] }
    ensures source { told_addresses [] (v4 2 9) ≡ v4 2 9 ∷ [] }
    ensures told { or_source (v4 0 1 ∷ []) (v4 2 9) ≡ v4 0 1 ∷ [] }
{}

/// The hellos of a redirect go to its new candidates alone and count as a sending, and leave the
/// gap as it was: only a repeat goes on to the next one. A redirect that adds nothing leaves all as
/// it was.
pub fn a_redirect_counts_as_a_sending()
    ensures kept { (s : StartupState) (a : AttemptState) →
        after_extension s (5, timed 0 1000 2 a) (v4 0 3 ∷ []) 3000
        ≡ with_attempt s 5 (extended (timed 0 1000 2 a) (v4 0 3 ∷ []) 3000) }
    ensures extended { (a : AttemptState) → extended (timed 0 1000 2 a) (v4 0 3 ∷ []) 3000
        ≡ record (timed 0 3000 2 a) { candidates = a.candidates ++ v4 0 3 ∷ [] } }
    ensures nothing { (s : StartupState) (a : AttemptState) → after_extension s (5, a) [] 3000
        ≡ s }
    ensures sent { (a : AttemptState) (peer : List ℕ) (n : ℕ) →
        redirect_spread_of (Some (5, towards peer n (record a { candidates = v4 0 1 ∷ [] })))
        (v4 0 2 ∷ v4 0 1 ∷ [])
        ≡ Some (record { to = v4 0 2 ∷ []; plain = ihello_packet (1 ∷ peer) a.tag }) }
    ensures before { (a : AttemptState) →
        is_repeat_due 5249 (extended (timed 0 1000 2 a) (v4 0 3 ∷ []) 3000) ≡ false }
    ensures again { (a : AttemptState) →
        is_repeat_due 5250 (extended (timed 0 1000 2 a) (v4 0 3 ∷ []) 3000) ≡ true }
{}

/// An attempt has 16 candidates at most. One more is told with how many it has, after a wide tag, a
/// tag that no attempt has, and the stage.
pub fn an_attempt_has_at_most_16_candidates()
    ensures most { full_cause (replicate 15 (v4 0 1)) (v4 0 2 ∷ []) ≡ None }
    ensures more { full_cause (replicate 16 (v4 0 1)) (v4 0 2 ∷ []) ≡ Some (CandidatesFull 16) }
    ensures added { full_cause (v4 0 1 ∷ []) (replicate 16 (v4 0 2)) ≡ Some (CandidatesFull 1) }
    ensures nothing { full_cause (replicate 16 (v4 0 1)) [] ≡ None }
    ensures wide { (all : Attempts) (addresses : List AddressParts) →
        redirect_cause_among all (replicate 129 0) addresses ≡ Some (Wide 129) }
    ensures none { (all : Attempts) (addresses : List AddressParts) → entries all ≡ [] →
        redirect_cause_among all (replicate 128 0) addresses ≡ Some NoAttempt }
    ensures stage { (a : AttemptState) (at : AddressParts) (cookie : List ℕ) (g : GroupSecret)
        (addresses : List AddressParts) →
        redirect_cause_at (Some (5, in_keying at cookie g a)) addresses ≡ Some WrongState }
    ensures full { (a : AttemptState) →
        redirect_cause_at (Some (5, in_hello (record a { candidates = replicate 16 (v4 0 1) })))
        (v4 0 2 ∷ [])
        ≡ Some (CandidatesFull 16) }
{}

/// A change under an attempt's near id is of that attempt alone; one under 0 is of the attempt with
/// the lowest near id that has the old cookie. In the hello stage an attempt has none.
pub fn a_change_under_a_near_id_is_of_that_attempt_alone()
    ensures own { (all : Attempts) (a : AttemptState) (at : AddressParts) (g : GroupSecret) →
        get all 6 ≡ Some (in_keying at (8 ∷ []) g a) →
        changed all 6 (8 ∷ []) ≡ Some (6, in_keying at (8 ∷ []) g a) }
    ensures other { (all : Attempts) (a : AttemptState) (at : AddressParts) (g : GroupSecret) →
        get all 5 ≡ Some (in_keying at (7 ∷ []) g a) → changed all 5 (8 ∷ []) ≡ None }
    ensures hello { (all : Attempts) (a : AttemptState) → get all 5 ≡ Some (in_hello a) →
        changed all 5 [] ≡ None }
    ensures unknown { (all : Attempts) (cookie : List ℕ) → get all 5 ≡ None →
        changed all 5 cookie ≡ None }
    ensures lowest { (all : Attempts) (a b : AttemptState) (at : AddressParts)
        (g : GroupSecret) →
        AreTwo all (in_keying at (8 ∷ []) g a) (in_keying at (8 ∷ []) g b) →
        changed all 0 (8 ∷ []) ≡ Some (5, in_keying at (8 ∷ []) g a) }
    ensures by_cookie { (all : Attempts) (a b : AttemptState) (at : AddressParts)
        (g : GroupSecret) →
        AreTwo all (in_keying at (7 ∷ []) g a) (in_keying at (8 ∷ []) g b) →
        changed all 0 (8 ∷ []) ≡ Some (6, in_keying at (8 ∷ []) g b) }
    ensures by_stage { (all : Attempts) (a b : AttemptState) (at : AddressParts)
        (g : GroupSecret) → AreTwo all (in_hello a) (in_keying at [] g b) →
        changed all 0 [] ≡ Some (6, in_keying at [] g b) }
{}

/// Of several attempts that have a tag, the one with the lowest near id counts, also where it can't
/// be answered.
pub fn the_lowest_near_id_of_a_tag_counts()
    ensures both { (all : Attempts) (a b : AttemptState) →
        AreTwo all (record a { tag = 7 ∷ [] }) (record b { tag = 7 ∷ [] }) →
        lowest (has_tag (7 ∷ [])) all ≡ Some (5, record a { tag = 7 ∷ [] }) }
    ensures second { (all : Attempts) (a b : AttemptState) →
        AreTwo all (record a { tag = 8 ∷ [] }) (record b { tag = 7 ∷ [] }) →
        lowest (has_tag (7 ∷ [])) all ≡ Some (6, record b { tag = 7 ∷ [] }) }
    ensures none { (all : Attempts) (a b : AttemptState) →
        AreTwo all (record a { tag = 8 ∷ [] }) (record b { tag = 9 ∷ [] }) →
        lowest (has_tag (7 ∷ [])) all ≡ None }
{}

/// A tag or a cookie of 129 bytes is wide; of two wide ones the first counts, and both come before
/// all else.
pub fn a_field_of_129_bytes_is_wide()
    ensures most { wide (replicate 128 0) ≡ None }
    ensures above { wide (replicate 129 0) ≡ Some (Wide 129) }
    ensures tag_first { (s : StartupState) (cert : List ℕ) →
        rhello_cause s (replicate 129 0) (replicate 130 0) cert ≡ Some (Wide 129) }
    ensures then_cookie { (s : StartupState) (cert : List ℕ) →
        rhello_cause s (replicate 128 0) (replicate 130 0) cert ≡ Some (Wide 130) }
    ensures then_attempt { (s : StartupState) (cert : List ℕ) → entries s.attempts ≡ [] →
        rhello_cause s (replicate 128 0) (replicate 128 0) cert ≡ Some NoAttempt }
    ensures old_first { (attempts : Attempts) (sid generation : ℕ) →
        change_cause_among attempts sid (replicate 129 0) (replicate 130 0) generation
        ≡ Some (Wide 129) }
    ensures then_new { (attempts : Attempts) (sid generation : ℕ) →
        change_cause_among attempts sid (replicate 128 0) (replicate 130 0) generation
        ≡ Some (Wide 130) }
    ensures then_none { (all : Attempts) (generation : ℕ) → entries all ≡ [] →
        change_cause_among all 0 (replicate 128 0) (replicate 128 0) generation
        ≡ Some NoAttempt }
{}

/// A responder's hello meets an attempt in the hello stage, of the end whose certificate it has;
/// the stage comes first.
pub fn a_hello_meets_the_hello_stage()
    ensures right { (s : StartupState) (peer cert : List ℕ) (n : ℕ) →
        bytes_eq (sha256 cert) peer ≡ true → hello_cause s Hello (AtPeer peer n) cert ≡ None }
    ensures peer { (s : StartupState) (peer cert : List ℕ) (n : ℕ) →
        bytes_eq (sha256 cert) peer ≡ false →
        hello_cause s Hello (AtPeer peer n) cert ≡ Some WrongPeer }
    ensures stage { (s : StartupState) (at : AddressParts) (cookie cert : List ℕ)
        (g : GroupSecret) (aim : Aim) → hello_cause s (Keying at cookie g) aim cert
        ≡ Some WrongState }
{}

/// What is no certificate in a responder's hello is told at its offset.
pub fn a_hello_without_a_certificate_is_told()
    ensures hello { (s : StartupState) (tag cookie : List ℕ) →
        rhello_refusal_with s (replicate 100 0) tag cookie (replicate 16 0x61)
        ≡ Some (Malformed 84) }
{}

/// An initiator's keying is discarded for its signature, then for a wide cookie, then for a bad
/// cookie, and then for what it says. A cookie that has moved or expired is no cause, whatever it
/// says.
pub fn a_keying_is_tested_from_its_signature_on()
    ensures signature { (s : StartupState) (payload : List ℕ) (from : AddressParts) (now : ℕ)
        (full : Option ℕ) (g : GroupSecret) (keying : InitiatorKeying) →
        is_signed g.secret payload keying.sign ≡ false →
        initiator_cause s payload from now full g keying ≡ Some BadSignature }
    ensures wide { (s : StartupState) (payload : List ℕ) (from : AddressParts) (now : ℕ)
        (full : Option ℕ) (g : GroupSecret) (keying : InitiatorKeying) →
        is_signed g.secret payload keying.sign ≡ true → length keying.cookie ≡ 129 →
        initiator_cause s payload from now full g keying ≡ Some (Wide 129) }
    ensures cookie { (s : StartupState) (payload : List ℕ) (from : AddressParts) (now : ℕ)
        (full : Option ℕ) (g : GroupSecret) (keying : InitiatorKeying) →
        is_signed g.secret payload keying.sign ≡ true → length keying.cookie ≡ 128 →
        cookie_test s.cookie_secret keying.cookie from now ≡ Bad →
        initiator_cause s payload from now full g keying ≡ Some BadCookie }
    ensures moved { (later : Option Cause) → cookie_cause Moved later ≡ None }
    ensures expired { (later : Option Cause) → cookie_cause Expired later ≡ None }
    ensures current { (later : Option Cause) → cookie_cause Current later ≡ later }
{}

/// A keying that is of another responder is discarded so, also where it is the own one; the own one
/// is, whatever the ledger says.
pub fn a_keying_is_of_this_responder_and_of_another_end()
    ensures responder { (s : StartupState) (full : Option ℕ) (keying : InitiatorKeying) →
        bytes_eq keying.part.responder (sha256 s.cert) ≡ false →
        named_cause s keying full ≡ Some WrongResponder }
    ensures own { (s : StartupState) (full : Option ℕ) (keying : InitiatorKeying) →
        bytes_eq keying.part.responder (sha256 s.cert) ≡ true → is_own s keying.cert ≡ true →
        named_cause s keying full ≡ Some OwnCertificate }
    ensures heard { (s : StartupState) (full : Option ℕ) (keying : InitiatorKeying) →
        bytes_eq keying.part.responder (sha256 s.cert) ≡ true → is_own s keying.cert ≡ false →
        named_cause s keying full ≡ heard_cause full
        (hear_refusal s.ledger (keying_of keying) (is_none full)) }
    ensures full { heard_cause (Some 4096) (Some SessionsFull) ≡ Some (CauseFull 4096) }
{}

/// A responder's keying needs an attempt in the keying stage, then the attempt's peer, then its
/// nonce.
pub fn an_answer_needs_the_stage_the_peer_and_the_nonce()
    ensures none { (keying : ResponderKeying) → attempt_cause keying None ≡ Some NoAttempt }
    ensures stage { (keying : ResponderKeying) (a : AttemptState) (peer : List ℕ) (n : ℕ) →
        attempt_cause keying (Some (towards peer n (in_hello a))) ≡ Some WrongState }
    ensures peer { (keying : ResponderKeying) (a : AttemptState) (at : AddressParts)
        (cookie peer : List ℕ) (n : ℕ) (g : GroupSecret) →
        bytes_eq keying.part.responder peer ≡ false →
        attempt_cause keying (Some (towards peer n (in_keying at cookie g a))) ≡ Some WrongPeer }
    ensures nonce { (keying : ResponderKeying) (a : AttemptState) (at : AddressParts)
        (cookie peer : List ℕ) (n : ℕ) (g : GroupSecret) →
        bytes_eq keying.part.responder peer ≡ true → bytes_eq keying.part.ni a.ni ≡ false →
        attempt_cause keying (Some (towards peer n (in_keying at cookie g a))) ≡ Some NoAttempt }
    ensures right { (keying : ResponderKeying) (a : AttemptState) (at : AddressParts)
        (cookie peer : List ℕ) (n : ℕ) (g : GroupSecret) →
        bytes_eq keying.part.responder peer ≡ true → bytes_eq keying.part.ni a.ni ≡ true →
        attempt_cause keying (Some (towards peer n (in_keying at cookie g a))) ≡ None }
    ensures signature { (s : StartupState) (near : ℕ) (payload : List ℕ) (g : GroupSecret)
        (keying : ResponderKeying) → is_signed g.secret payload keying.sign ≡ false →
        responder_cause s near payload g keying ≡ Some BadSignature }
{}

/// A hello, an initiator's keying and their answers go under session ID 0, or under that which the
/// other end named, and are sealed in the generation that is given.
pub fn answers_go_where_they_are_taken()
    ensures hello { (s : StartupState) (tag : List ℕ) (to : AddressParts) (now : ℕ)
        (g : GroupSecret) → initiator_hello_answer s tag to now g
        ≡ record {
          to = to;
          sid = 0;
          plain = rhello_packet tag (cookie_of s.cookie_secret to now) s.cert;
          generation = g.generation;
          keys = startup_keys_of g;
        } }
    ensures keying { (cert : List ℕ) (near : ℕ) (a : AttemptState) (to : AddressParts)
        (peer cookie : List ℕ) (n : ℕ) (g : GroupSecret) →
        keying_under g cert near (towards peer n a) to cookie
        ≡ record {
          to = to;
          sid = 0;
          plain = iikeying_signed (sign_key_of g.secret) near cookie cert a.ni n
              peer;
          generation = g.generation;
          keys = startup_keys_of g;
        } }
    ensures change { (s : StartupState) (keying : InitiatorKeying) (from : AddressParts) (now : ℕ)
        (g : GroupSecret) → change_answer s keying from now g
        ≡ record {
          to = from;
          sid = keying.near;
          plain = cookiechange_packet keying.cookie (cookie_of s.cookie_secret from now);
          generation = g.generation;
          keys = startup_keys_of g;
        } }
    ensures born { (s : StartupState) (j : Joined) (from : AddressParts) (g : GroupSecret) →
        session_answer s j from g
        ≡ record {
          to = from;
          sid = j.far;
          plain = rikeying_packet g.secret j.near j.nr j.k (sha256 s.cert) j.ni;
          generation = g.generation;
          keys = startup_keys_of g;
        } }
{}
