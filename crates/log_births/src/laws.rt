//! The law of what makes way. The function does nothing: its contract states the law.

ghost use Rattle.log_births.specs.Births.{NothingMadeWayBeforeAnEvent};

/// Nothing made way where an event began last.
pub fn nothing_made_way_before_an_event()
    ensures { NothingMadeWayBeforeAnEvent }
{}
