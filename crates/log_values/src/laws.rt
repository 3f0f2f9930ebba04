//! The law of the history that logs tell. The function does nothing: its contract states it.

ghost use Rattle.log_values.specs.Told.{EachEndHasItsLog};

/// In an order that has each event of each log once, the log of each end in the history is its log.
pub fn each_end_has_its_log()
    ensures { EachEndHasItsLog }
{}
