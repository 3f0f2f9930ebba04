//! Laws of a session's flows, each the contract of a function that does nothing.

ghost use Rattle.session_flows.specs.Laws.{TheNextSends, HandsAllThatAreReady, LeavesNothingReady};
ghost use Rattle.session_flows.specs.Laws.{LeavesNoMessage, StaysWithin, TakesOne};
ghost use Rattle.session_flows.specs.Laws.{IdleHaveNothingDue};

/// Of the flows that may send, the one that sends has the highest priority, and the lowest ID of
/// those with that priority. Where none sends, none may.
pub fn the_highest_priority_sends_first()
    ensures { TheNextSends }
{}

/// A chunk that goes leaves no more bytes in flight, of all flows of the session, than its window
/// has.
pub fn flight_stays_within_the_window()
    ensures { StaysWithin }
{}

/// A chunk that goes takes one from what is left to send at a moment, so packing ends.
pub fn each_chunk_takes_one()
    ensures { TakesOne }
{}

/// Where all sending flows are idle nothing of them is lost by time, no message is overdue, and none
/// sends, whatever the moment.
pub fn idle_flows_have_nothing_due()
    ensures { IdleHaveNothingDue }
{}

/// After a chunk its flow hands over all runs that may be, by rising numbers, and no others; then
/// none is ready.
pub fn all_that_is_ready_is_handed_over()
    ensures all { HandsAllThatAreReady }
    ensures none_left { LeavesNothingReady }
{}

/// After an exception no message of the flow waits.
pub fn an_exception_abandons_all_messages()
    ensures { LeavesNoMessage }
{}
