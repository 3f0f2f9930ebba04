//! The laws of this crate. The functions do nothing: the contract of each states a law.

ghost use Rattle.log_outs.specs.Laws.{EachClosesOwn};

/// What is closing under a session ID had that one while it was held.
pub fn each_closes_own()
    ensures { EachClosesOwn }
{}
