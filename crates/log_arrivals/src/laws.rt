//! The law of what is found of datagrams. The function does nothing: its contract states it.

ghost use Rattle.log_arrivals.specs.Laws.{FoundTells};

/// What is found of the datagram of a call tells where it opens, and what is given to a session is
/// that datagram.
pub fn what_is_found_tells()
    ensures { FoundTells }
{}
