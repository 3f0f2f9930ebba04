//! The laws of what is kept of session IDs. The functions do nothing: the contract of each states a
//! law.

ghost use Rattle.log_contexts.specs.Laws.{BirthsOpen, GenerationsAreOne, KeptTells, NoIdIsZero, OneThingStands, TaggedTell, TakingTells};

/// What is said of a generation is said of one alone.
pub fn generations_are_one()
    ensures { GenerationsAreOne }
{}

/// In a log that has a digest, one thing is held or closing under a session ID.
pub fn one_thing_stands()
    ensures { OneThingStands }
{}

/// How an end takes datagrams under a session ID tells whether one opens in no session, and in
/// which generation it opens outside of sessions.
pub fn taking_tells()
    ensures { TakingTells }
{}

/// Where a session begins by its line of the table of lawful logs, its event's datagram opened
/// outside of sessions; and the startup contexts stay in such an event.
pub fn births_open()
    ensures { BirthsOpen }
{}

/// What is kept tells of attempts and searches whether they are in the hello stage, and of sessions
/// in which generation they began, and when they took the last datagram.
pub fn what_is_kept_tells()
    ensures { KeptTells }
{}

/// What is kept tells which attempts and searches stand with a tag.
pub fn tagged_ones_are_told()
    ensures { TaggedTell }
{}

/// Nothing has session ID 0 in a lawful log.
pub fn no_id_is_zero()
    ensures { NoIdIsZero }
{}
