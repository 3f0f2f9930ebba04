//! What sessions keep, for callers' proofs. The functions do nothing: the contract of each is its
//! law.

ghost use Rattle.session_core.specs.Calls.{AddressIsTheLast, CourseIsByTheTable, EndsStay, StampIsTheLast, TakenIsTheLast, TripIsByTheSamples, WindowIsByAcksAndLosses};
ghost use Rattle.session_core.specs.Deadline.{IsDueByDeadline};
ghost use Rattle.session_core.specs.Meeting.{ContextsMeet, SealedOpensThere};
ghost use Rattle.session_core.specs.Hearing.{HearsByTaken, OpensInItsContext, OpensSomePlain, OpensThisPlain};

/// A session hears each sealed part as the whole list of the numbers that it took says.
pub fn a_session_hears_by_what_it_took()
    ensures { HearsByTaken }
{}

/// A sealed part opens in a session exactly where it is the sealed part of some plain packet, and
/// of one alone: by the session's keys, and so under their secret in the session's context.
pub fn what_opens_was_sealed_in_its_context()
    ensures some { OpensSomePlain }
    ensures one { OpensThisPlain }
    ensures context { OpensInItsContext }
{}

/// The context away from one end of a session is that towards the other.
pub fn the_contexts_of_two_ends_meet()
    ensures { ContextsMeet }
{}

/// What one end of a session seals opens at the other.
pub fn what_one_end_seals_opens_at_the_other()
    ensures { SealedOpensThere }
{}

/// After whatever list of calls, the moment of the last datagram is that of the last head taken, or
/// of the beginning; so are the last timestamp and the address. The round trip and the window are
/// by what came of samples, acks and losses.
pub fn values_are_folds_over_the_calls()
    ensures taken { TakenIsTheLast }
    ensures stamp { StampIsTheLast }
    ensures address { AddressIsTheLast }
    ensures trip { TripIsByTheSamples }
    ensures window { WindowIsByAcksAndLosses }
    ensures ends { EndsStay }
{}

/// After whatever list of calls, the stage and the moments of its beginning, of the last close and
/// of the last keepalive are those to which the table of the calls leads.
pub fn a_session_goes_by_the_table_of_its_calls()
    ensures { CourseIsByTheTable }
{}

/// At each moment something of its own is due of a session, or a keepalive, exactly where its
/// deadline has come.
pub fn what_is_due_is_past_the_deadline()
    ensures { IsDueByDeadline }
{}
