//! Which check of an audit fails first, in short audits. The functions do nothing: the contract of
//! each is a table.

ghost use Rattle.std.specs.Prelude.{◌≡◌, ◌∷◌, [], Some, None};
ghost use Rattle.std.specs.FinMap.{get};
ghost use Rattle.log_verdict.specs.declared.verdict.AuditFault.TheVariants.{Secrets, NotFresh};
ghost use Rattle.endpoint_model.specs.Event.{own_of};
ghost use Rattle.log_verdict.specs.Told.{secrets_in};
ghost use Rattle.log_verdict.specs.Checks.{found, AllPass, FailsFirst, kept_in};
ghost use Rattle.log_verdict.specs.Edges.{end, learns, quiet};

/// Of two secrets for one number the first counts, in the order of the ends, and then of the
/// events.
pub fn the_first_secret_of_a_number_counts()
    ensures first { get (secrets_in (end 1 0 7 ∷ end 2 0 8 ∷ []) []) 0 ≡ Some (7 ∷ []) }
    ensures other { get (secrets_in (end 1 0 7 ∷ end 2 1 8 ∷ []) []) 1 ≡ Some (8 ∷ []) }
    ensures none { get (secrets_in (end 1 0 7 ∷ []) []) 1 ≡ None }
    ensures learnt { get (secrets_in (end 1 0 7 ∷ []) (learns 0 1 9 ∷ [])) 1 ≡ Some (9 ∷ []) }
    ensures earlier { get (secrets_in (end 1 0 7 ∷ []) (learns 0 1 5 ∷ learns 0 1 9 ∷ [])) 1
        ≡ Some (9 ∷ []) }
    ensures given { get (secrets_in (end 1 1 7 ∷ []) (learns 0 1 9 ∷ [])) 1 ≡ Some (7 ∷ []) }
{}

/// No ends and no events pass; an end without events passes, too.
pub fn nothing_passes()
    ensures none { AllPass [] [] }
    ensures one { AllPass (end 1 0 7 ∷ []) [] }
    ensures two { (own_of (end 1 0 7) ≡ own_of (end 2 0 7) → ⊥) →
        AllPass (end 1 0 7 ∷ end 2 0 7 ∷ []) [] }
    ensures kept { kept_in 0 [] ≡ 0 }
{}

/// What ends were given is event 0, and an end's entry is its place, from 1. Its secret is looked
/// at before its fingerprint.
pub fn ends_are_entries_of_event_0()
    ensures secret { FailsFirst (end 1 0 7 ∷ end 2 0 8 ∷ []) [] (found 0 2 Secrets) }
    ensures print { FailsFirst (end 1 0 7 ∷ end 1 0 7 ∷ []) [] (found 0 2 NotFresh) }
    ensures both { FailsFirst (end 1 0 7 ∷ end 1 0 8 ∷ []) [] (found 0 2 Secrets) }
    ensures earlier { FailsFirst (end 1 0 7 ∷ end 1 0 7 ∷ end 2 0 8 ∷ []) [] (found 0 2 NotFresh) }
{}

/// An event is judged as a whole first, as its entry 0: another secret for a number that has one.
pub fn an_event_is_judged_as_a_whole_first()
    ensures secret { FailsFirst (end 1 1 7 ∷ []) (learns 0 1 9 ∷ []) (found 1 0 Secrets) }
    ensures later { FailsFirst (end 1 1 7 ∷ []) (learns 0 1 9 ∷ quiet 0 ∷ []) (found 2 0 Secrets) }
{}
