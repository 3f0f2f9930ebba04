//! The rules of searches at their edges and one beside, and the order of the causes for which a
//! responder's hello doesn't answer one. The functions do nothing: the contract of each states what
//! the definitions that the other contracts cite are there. All of it is own.

ghost use Rattle.std.specs.Prelude.{◌≡◌, ◌∷◌, ◌+◌, ℕ, List, [], drop, true, false, Some, None};
ghost use Rattle.std.specs.Str.{bytes_eq};
ghost use Rattle.std.specs.FinMap.{get, remove};
ghost use Rattle.sha2.specs.Sha256.{sha256};
ghost use Rattle.crypto_profile.specs.declared.group.GroupSecret.{GroupSecret};
ghost use Rattle.crypto_profile.specs.Keys.{sign_key_of, startup_keys_of};
ghost use Rattle.rtmfp_forms.specs.Address.{AddressParts};
ghost use Rattle.rtmfp_base.specs.declared.cause.Cause.TheVariants.{AlreadyHeld, AttemptsSpent, NoAttempt, OwnCertificate, PeersFull, WrongPeer, WrongState};
ghost use Rattle.glare_core.specs.declared.facts.Fact.TheVariants.{Started};
ghost use Rattle.glare_core.specs.declared.facts.Held.{Held};
ghost use Rattle.glare_core.specs.declared.facts.Held.TheVariants.{HalfOpen, Opening};
ghost use Rattle.glare_core.specs.declared.facts.Joined.{Joined};
ghost use Rattle.glare_core.specs.Ledger.{Ledger, held_with, noted, row_count};
ghost use Rattle.glare_core.specs.Calls.{peers_full};
ghost use Rattle.startup_packets.specs.Packets.{ihello_packet, iikeying_signed};
ghost use Rattle.startup_packets.specs.Readings.{ResponderKeying};
ghost use Rattle.startup.specs.declared.aim.Aim.TheVariants.{ByName};
ghost use Rattle.startup.specs.declared.attempt.Stage.TheVariants.{Hello};
ghost use Rattle.startup.specs.declared.answer.Due.TheVariants.{Hello as HelloDue, Unsought};
ghost use Rattle.startup.specs.State.{AttemptState, Attempts, StartupState};
ghost use Rattle.startup.specs.Attempts.{after_answer, after_seek, after_unseek, answer_fact, answer_keying, begun_search, has_number, has_search, has_tag, held_cause, hello_cause, hello_cause_at, hello_spread, is_own, lowest, met, search_cause, spent_cause, with_attempt, with_ledger};
ghost use Rattle.startup.specs.Due.{after_due_of, due_of, is_over};
ghost use Rattle.startup.specs.Keyings.{attempt_cause};
ghost use Rattle.startup.specs.Edges.{v4, timed, towards, searching, in_hello, in_keying, AreTwo};

/// A search begins with its hellos as its last sending. It has no number, and the ledger stays as it
/// was. Its discriminator is the byte 2 and the name.
pub fn a_search_begins_without_a_number()
    ensures begun { (name ni tag : List ℕ) →
        begun_search name (v4 0 1 ∷ v4 2 1 ∷ []) ni tag 1000
        ≡ record {
          aim = ByName name;
          ni = ni;
          tag = tag;
          start = 1000;
          candidates = v4 0 1 ∷ [];
          stage = Hello;
          last = 1000;
          gap = 0;
        } }
    ensures unnoted { (s : StartupState) (name ni tag : List ℕ) (candidates : List AddressParts)
        (near moment : ℕ) → (after_seek s name candidates near ni tag moment).ledger ≡ s.ledger }
    ensures unnumbered { (a : AttemptState) (name : List ℕ) (n : ℕ) →
        has_number n (searching name a) ≡ false }
    ensures hellos { (a : AttemptState) (name : List ℕ) (to : List AddressParts) →
        hello_spread (searching name a) to
        ≡ record { to = to; plain = ihello_packet (2 ∷ name) a.tag } }
{}

/// A search is given up by its near id, and an attempt isn't.
pub fn a_search_alone_is_given_up_by_its_near_id()
    ensures search { (s : StartupState) (a : AttemptState) (name : List ℕ) →
        get s.attempts 5 ≡ Some (searching name a) → has_search s 5 ≡ true }
    ensures gone { (s : StartupState) (a : AttemptState) (name : List ℕ) →
        get s.attempts 5 ≡ Some (searching name a) →
        after_unseek s 5 ≡ record s { attempts = remove s.attempts 5 } }
    ensures attempt { (s : StartupState) (a : AttemptState) (peer : List ℕ) (n : ℕ) →
        get s.attempts 5 ≡ Some (towards peer n a) → has_search s 5 ≡ false }
    ensures stays { (s : StartupState) (a : AttemptState) (peer : List ℕ) (n : ℕ) →
        get s.attempts 5 ≡ Some (towards peer n a) → after_unseek s 5 ≡ s }
    ensures none { (s : StartupState) → get s.attempts 5 ≡ None → after_unseek s 5 ≡ s }
{}

/// A search that isn't answered is given up 95,000 ms after it began, and no fact is noted.
pub fn a_search_is_over_after_95_seconds()
    ensures last_repeat { (s : StartupState) (a : AttemptState) (name : List ℕ) →
        due_of s 95999 (Some (5, searching name (in_hello (timed 1000 90000 4 a))))
        ≡ Some (HelloDue (record { to = a.candidates; plain = ihello_packet (2 ∷ name) a.tag })) }
    ensures end { (s : StartupState) (a : AttemptState) (name : List ℕ) →
        due_of s 96000 (Some (5, searching name (in_hello (timed 1000 90000 4 a))))
        ≡ Some (Unsought 5) }
    ensures after_end { (s : StartupState) (a : AttemptState) (name : List ℕ) →
        after_due_of s 96000 (Some (5, searching name (timed 1000 90000 4 a)))
        ≡ record s { attempts = remove s.attempts 5 } }
{}

/// A search that is answered starts as an attempt at that moment: Started is noted with the search's
/// near id and nonce, and the attempt lasts 95,000 ms from then on. An attempt that is answered
/// states nothing.
pub fn a_search_starts_where_it_is_answered()
    ensures fact { (s : StartupState) (a : AttemptState) (name print : List ℕ) →
        answer_fact s print (Some (5, searching name a))
        ≡ Some (Started print (s.ledger.started + 1) 5 a.ni) }
    ensures no_fact { (s : StartupState) (a : AttemptState) (peer print : List ℕ) (n : ℕ) →
        answer_fact s print (Some (5, towards peer n a)) ≡ None }
    ensures noted { (s : StartupState) (a : AttemptState) (name print cookie : List ℕ)
        (from : AddressParts) (moment : ℕ) (g : GroupSecret) →
        after_answer s print (Some (5, searching name a)) from cookie moment g
        ≡ with_attempt
        (with_ledger s (noted s.ledger (Started print (s.ledger.started + 1) 5 a.ni))) 5
        (met (searching name a) print (s.ledger.started + 1) from cookie moment g) }
    ensures keying { (s : StartupState) (a : AttemptState) (name print cookie : List ℕ)
        (from : AddressParts) (g : GroupSecret) →
        answer_keying s print (Some (5, searching name a)) from cookie g
        ≡ Some (record {
          to = from;
          sid = 0;
          plain = iikeying_signed (sign_key_of g.secret) 5 cookie s.cert a.ni
              (s.ledger.started + 1) print;
          generation = g.generation;
          keys = startup_keys_of g;
        }) }
    ensures met { (a : AttemptState) (name peer cookie : List ℕ) (from : AddressParts)
        (g : GroupSecret) →
        met (searching name (in_hello (timed 1000 91000 3 a))) peer 7 from cookie 94000 g
        ≡ towards peer 7 (in_keying from cookie g (timed 94000 94000 0 a)) }
    ensures lasts { (a : AttemptState) (peer cookie : List ℕ) (from : AddressParts)
        (g : GroupSecret) →
        is_over 96000 (met (timed 1000 91000 3 a) peer 7 from cookie 94000 g) ≡ false }
    ensures last { (a : AttemptState) (peer cookie : List ℕ) (from : AddressParts)
        (g : GroupSecret) →
        is_over 188999 (met (timed 1000 91000 3 a) peer 7 from cookie 94000 g) ≡ false }
    ensures over { (a : AttemptState) (peer cookie : List ℕ) (from : AddressParts)
        (g : GroupSecret) →
        is_over 189000 (met (timed 1000 91000 3 a) peer 7 from cookie 94000 g) ≡ true }
{}

/// The hello of an end with another name doesn't answer a search, whatever else holds; that of the
/// own certificate doesn't, whatever is held; and then what is held with the end comes first, an
/// attempt as a session, before the numbers and the rows.
pub fn a_search_is_answered_by_an_end_that_is_free()
    ensures name { (s : StartupState) (name cert : List ℕ) →
        bytes_eq name (drop 16 cert) ≡ false → search_cause s name cert ≡ Some WrongPeer }
    ensures own { (s : StartupState) (name cert : List ℕ) →
        bytes_eq name (drop 16 cert) ≡ true → is_own s cert ≡ true →
        search_cause s name cert ≡ Some OwnCertificate }
    ensures attempt { (s : StartupState) (name cert ni : List ℕ) →
        bytes_eq name (drop 16 cert) ≡ true → is_own s cert ≡ false →
        held_with s.ledger (sha256 cert) ≡ Some (Opening 3 8 ni) →
        search_cause s name cert ≡ Some (AlreadyHeld 8) }
    ensures session { (j : Joined) → held_cause (Some (HalfOpen j)) ≡ Some (AlreadyHeld j.near) }
    ensures spent { (s : StartupState) (name cert : List ℕ) →
        bytes_eq name (drop 16 cert) ≡ true → is_own s cert ≡ false →
        held_with s.ledger (sha256 cert) ≡ None →
        spent_cause s.ledger (sha256 cert) ≡ Some AttemptsSpent →
        search_cause s name cert ≡ Some AttemptsSpent }
    ensures free { (s : StartupState) (name cert : List ℕ) →
        bytes_eq name (drop 16 cert) ≡ true → is_own s cert ≡ false →
        held_with s.ledger (sha256 cert) ≡ None →
        spent_cause s.ledger (sha256 cert) ≡ None → search_cause s name cert ≡ None }
    ensures by_name { (s : StartupState) (name cert : List ℕ) →
        hello_cause s Hello (ByName name) cert ≡ search_cause s name cert }
{}

/// Of 2^64-1 attempts that were started none more is, and that comes before the rows.
pub fn the_last_number_is_spent_before_the_rows_are()
    ensures spent { (l : Ledger) (peer : List ℕ) →
        spent_cause (record l { started = 18446744073709551615 }) peer ≡ Some AttemptsSpent }
    ensures rows { (l : Ledger) (peer : List ℕ) → peers_full l peer ≡ true →
        spent_cause (record l { started = 18446744073709551614 }) peer
        ≡ Some (PeersFull (row_count l)) }
    ensures room { (l : Ledger) (peer : List ℕ) → peers_full l peer ≡ false →
        spent_cause (record l { started = 18446744073709551614 }) peer ≡ None }
{}

/// Of an attempt and a search that have one tag the one with the lowest near id counts, also where
/// it can't be answered.
pub fn an_attempt_and_a_search_have_one_order()
    ensures attempt { (s : StartupState) (all : Attempts) (a b : AttemptState) (at : AddressParts)
        (name cookie cert peer : List ℕ) (n : ℕ) (g : GroupSecret) →
        AreTwo all (towards peer n (in_keying at cookie g (record a { tag = 7 ∷ [] })))
        (searching name (in_hello (record b { tag = 7 ∷ [] }))) →
        hello_cause_at s (lowest (has_tag (7 ∷ [])) all) cert ≡ Some WrongState }
    ensures search { (s : StartupState) (all : Attempts) (a b : AttemptState)
        (name cert peer : List ℕ) (n : ℕ) → bytes_eq name (drop 16 cert) ≡ false →
        AreTwo all (searching name (in_hello (record a { tag = 7 ∷ [] })))
        (towards peer n (in_hello (record b { tag = 7 ∷ [] }))) →
        hello_cause_at s (lowest (has_tag (7 ∷ [])) all) cert ≡ Some WrongPeer }
{}

/// No responder's keying opens a search, whose stage doesn't count.
pub fn a_keying_opens_no_search()
    ensures none { (keying : ResponderKeying) (a : AttemptState) (name : List ℕ) →
        attempt_cause keying (Some (searching name (in_hello a))) ≡ Some NoAttempt }
{}
