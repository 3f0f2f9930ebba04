//! What stands behind the laws: that their premises can be met, that they are needed as they are,
//! and how they are met end by end. Each is a function that does nothing, whose contract is the
//! statement.

ghost use Rattle.glare_core.specs.Witness.{LivelyHistory};
ghost use Rattle.glare_core.specs.Counterexample.{EarlyOverride};
ghost use Rattle.glare_core.specs.PerEnd.{EachLogIsItsEvents, LawfulEndByEnd, EachPrefixIsAMoment};

/// There is a lawful, honest and fresh history in which attempts cross, a session is kept by both
/// ends, and one is overridden.
pub fn premises_can_be_met()
    ensures { LivelyHistory }
{}

/// Were the Born after an Override allowed to come in a later event, a session could be overridden
/// that its peer still has.
pub fn override_needs_its_birth_in_one_event()
    ensures { EarlyOverride }
{}

/// A history is lawful where the events of each end are, by that end's log alone.
pub fn lawful_end_by_end()
    ensures logs { EachLogIsItsEvents }
    ensures lawful { LawfulEndByEnd }
{}

/// The laws, which hold at each moment, hold after each event.
pub fn each_prefix_is_a_moment()
    ensures { EachPrefixIsAMoment }
{}
