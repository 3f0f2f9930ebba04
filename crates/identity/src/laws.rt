//! What holds of the order of fingerprints. Each law is a function that does nothing, whose
//! contract is the law.

ghost use Rattle.identity.specs.Order.{IsIrreflexive, IsAsymmetric, IsTransitive, OneIsAbove, Prevails};

/// The order is strict, and of two different fingerprints exactly one prevails over the other.
pub fn prevails_is_strict_total_order()
    ensures never_over_itself { IsIrreflexive Prevails }
    ensures transitive { IsTransitive Prevails }
    ensures one_of_two { OneIsAbove Prevails }
    ensures not_both { IsAsymmetric Prevails }
{}
