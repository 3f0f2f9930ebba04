//! The rules of generations at their edges. The functions do nothing: the contract of each states
//! what the definitions that the other contracts cite are there. All of it is own.

ghost use Rattle.std.specs.Prelude.{◌≡◌, ◌∷◌, ℕ, List, [], Some, None};
ghost use Rattle.std.specs.FinMap.{get, remove};
ghost use Rattle.sha2.specs.Sha256.{sha256};
ghost use Rattle.crypto_profile.specs.declared.group.GroupSecret.{GroupSecret};
ghost use Rattle.crypto_profile.specs.Keys.{sign_key_of, startup_keys_of};
ghost use Rattle.rtmfp_forms.specs.Address.{AddressParts};
ghost use Rattle.rtmfp_base.specs.declared.cause.Cause.TheVariants.{NoAttempt};
ghost use Rattle.glare_core.specs.declared.answers.Keying.{Keying as KeyingValues};
ghost use Rattle.glare_core.specs.declared.facts.Fact.{Fact};
ghost use Rattle.glare_core.specs.declared.facts.Joined.{Joined};
ghost use Rattle.glare_core.specs.Ledger.{noted};
ghost use Rattle.startup_packets.specs.Packets.{iikeying_signed, rikeying_signature, rikeying_with};
ghost use Rattle.startup.specs.declared.answer.Due.TheVariants.{Keying as KeyingDue};
ghost use Rattle.startup.specs.declared.answer.Keyed.TheVariants.{Again};
ghost use Rattle.startup.specs.declared.kept.KeptKeying.{KeptKeying};
ghost use Rattle.startup.specs.State.{AttemptState, Attempts, StartupState};
ghost use Rattle.startup.specs.Answers.{answer_under, group_of};
ghost use Rattle.startup.specs.Attempts.{after_answer, after_end_by, answer_keying, change_cause_among, change_keying, secret_of, with_attempt};
ghost use Rattle.startup.specs.Due.{due_of};
ghost use Rattle.startup.specs.Keyings.{after_again_or_birth, again_or_birth, kept_answer, kept_keying, session_answer};
ghost use Rattle.startup.specs.Edges.{timed, towards, searching, in_hello, in_keying, AreTwo};

/// An attempt keeps the generation in which the hello came that answers it, and its secret: its
/// keying is signed and sealed under that, and so is each repeat of it, which is given no other.
pub fn an_attempt_keeps_the_generation_of_its_answer()
    ensures kept { (s : StartupState) (a : AttemptState) (print peer cookie secret : List ℕ)
        (n : ℕ) (from : AddressParts) →
        after_answer s print (Some (5, towards peer n (timed 0 1000 3 a))) from cookie 3000
        (group_of 8 secret)
        ≡ with_attempt s 5
        (towards peer n (in_keying from cookie (group_of 8 secret) (timed 0 3000 0 a))) }
    ensures keying { (s : StartupState) (a : AttemptState) (print peer cookie secret : List ℕ)
        (n : ℕ) (from : AddressParts) →
        answer_keying s print (Some (5, towards peer n a)) from cookie (group_of 8 secret)
        ≡ Some (record {
          to = from;
          sid = 0;
          plain = iikeying_signed (sign_key_of secret) 5 cookie s.cert a.ni n
              peer;
          generation = 8;
          keys = startup_keys_of (group_of 8 secret);
        }) }
    ensures repeated { (s : StartupState) (a : AttemptState) (peer cookie secret : List ℕ)
        (n : ℕ) (at : AddressParts) →
        due_of s 4000
        (Some (5, towards peer n (in_keying at cookie (group_of 8 secret) (timed 0 3000 0 a))))
        ≡ Some (KeyingDue (record {
          to = at;
          sid = 0;
          plain = iikeying_signed (sign_key_of secret) 5 cookie s.cert a.ni n
              peer;
          generation = 8;
          keys = startup_keys_of (group_of 8 secret);
        })) }
{}

/// A change of a cookie in another generation than that of the attempt which it is of is of no
/// attempt, also where another attempt with that cookie is of its generation. One in the attempt's
/// own is answered under the attempt's secret.
pub fn a_change_in_another_generation_is_of_no_attempt()
    ensures own { (all : Attempts) (a : AttemptState) (at : AddressParts) (secret : List ℕ) →
        get all 6 ≡ Some (in_keying at (7 ∷ []) (group_of 8 secret) a) →
        change_cause_among all 6 (7 ∷ []) (1 ∷ []) 8 ≡ None }
    ensures other { (all : Attempts) (a : AttemptState) (at : AddressParts) (secret : List ℕ) →
        get all 6 ≡ Some (in_keying at (7 ∷ []) (group_of 8 secret) a) →
        change_cause_among all 6 (7 ∷ []) (1 ∷ []) 9 ≡ Some NoAttempt }
    ensures first { (all : Attempts) (a b : AttemptState) (at : AddressParts)
        (one other : List ℕ) →
        AreTwo all (in_keying at (7 ∷ []) (group_of 8 one) a)
        (in_keying at (7 ∷ []) (group_of 9 other) b) →
        change_cause_among all 0 (7 ∷ []) (1 ∷ []) 9 ≡ Some NoAttempt }
    ensures keying { (s : StartupState) (a : AttemptState) (at : AddressParts)
        (peer old new secret : List ℕ) (n : ℕ) →
        change_keying s (Some (5, towards peer n (in_keying at old (group_of 8 secret) a))) new
        ≡ Some (answer_under (group_of 8 secret) at 0
        (iikeying_signed (sign_key_of secret) 5 new s.cert a.ni n peer)) }
{}

/// A repeated keying is answered as it was at first, with the same bytes and under the keys of the
/// generation in which its session was born, whatever it came in. Where nothing is kept of the
/// session, there is no answer.
#[tactic(auto, unfolding(startup_packets::specs::Packets::rikeying_signed, startup_packets::specs::Packets::rikeying_with))]
pub fn a_repeated_keying_is_answered_in_the_generation_of_its_birth()
    ensures kept { (s : StartupState) (keying : KeyingValues) (near : ℕ) (nr secret : List ℕ) →
        get (after_again_or_birth s keying near nr (group_of 7 secret) None).kept keying.peer
        ≡ Some (record {
          generation = 7;
          keys = startup_keys_of (group_of 7 secret);
          sign = rikeying_signature (sign_key_of secret) near nr s.ledger.started
              (sha256 s.cert) keying.ni;
        }) }
    ensures again { (s : StartupState) (keying : KeyingValues) (from : AddressParts) (near : ℕ)
        (nr secret : List ℕ) (j : Joined) (kept : KeptKeying) →
        get s.kept keying.peer ≡ Some kept →
        again_or_birth s keying from near nr (group_of 9 secret) (Some j)
        ≡ Some (Again (record {
          to = from;
          sid = j.far;
          plain = rikeying_with j.near j.nr j.k (sha256 s.cert) j.ni kept.sign;
          generation = kept.generation;
          keys = kept.keys;
        })) }
    ensures same { (s : StartupState) (from : AddressParts) (secret : List ℕ) (j : Joined) →
        kept_answer s j from (kept_keying s j (group_of 7 secret))
        ≡ session_answer s j from (group_of 7 secret) }
    ensures none { (s : StartupState) (keying : KeyingValues) (from : AddressParts) (near : ℕ)
        (nr : List ℕ) (g : GroupSecret) (j : Joined) → get s.kept keying.peer ≡ None →
        again_or_birth s keying from near nr g (Some j) ≡ None }
{}

/// With the end of a session what was kept of it is forgotten; where no session ends, nothing is.
pub fn an_end_forgets_what_was_kept()
    ensures ended { (s : StartupState) (peer : List ℕ) (fact : Fact) →
        after_end_by s peer (Some fact)
        ≡ record s { ledger = noted s.ledger fact; kept = remove s.kept peer } }
    ensures gone { (s : StartupState) (peer : List ℕ) (fact : Fact) →
        get (after_end_by s peer (Some fact)).kept peer ≡ None }
    ensures none { (s : StartupState) (peer : List ℕ) → after_end_by s peer None ≡ s }
{}

/// An attempt has a generation and a secret in the keying stage alone, and a search has none.
pub fn an_attempt_has_a_secret_in_the_keying_stage()
    ensures none { (s : StartupState) → get s.attempts 5 ≡ None → secret_of s 5 ≡ None }
    ensures hello { (s : StartupState) (a : AttemptState) →
        get s.attempts 5 ≡ Some (in_hello a) → secret_of s 5 ≡ None }
    ensures search { (s : StartupState) (a : AttemptState) (name : List ℕ) →
        get s.attempts 5 ≡ Some (searching name (in_hello a)) → secret_of s 5 ≡ None }
    ensures keying { (s : StartupState) (a : AttemptState) (at : AddressParts) (cookie : List ℕ)
        (g : GroupSecret) → get s.attempts 5 ≡ Some (in_keying at cookie g a) →
        secret_of s 5 ≡ Some g }
{}
