//! What a fact leaves of the count of attempts. The function does nothing: its contract is a table.
//! A fingerprint is a short list of bytes here.

ghost use Rattle.std.specs.Prelude.{◌≡◌, ◌∷◌, []};
ghost use Rattle.glare_core.specs.declared.facts.Fact.TheVariants.{Started, Born, Opened, Confirmed, Ended};
ghost use Rattle.glare_core.specs.declared.facts.Why.TheVariants.{Expired};
ghost use Rattle.fact_digest.specs.Roll.{started_after};
ghost use Rattle.fact_digest.specs.Edges.{session};

/// An attempt that starts has its own number as the count, and nothing else counts.
pub fn attempts_that_start_are_counted()
    ensures first { started_after (Started (5 ∷ []) 1 7 []) 0 ≡ 1 }
    ensures later { started_after (Started (5 ∷ []) 4 7 []) 3 ≡ 4 }
    ensures born { started_after (Born session) 3 ≡ 3 }
    ensures opened { started_after (Opened session) 3 ≡ 3 }
    ensures confirmed { started_after (Confirmed (5 ∷ []) 7) 3 ≡ 3 }
    ensures ended { started_after (Ended (5 ∷ []) 7 Expired) 3 ≡ 3 }
{}
