//! The laws of what is kept of logs. The functions do nothing: the contract of each states a law.

ghost use Rattle.log_digest.specs.Generations.{TheyTellStartup};
ghost use Rattle.log_digest.specs.Hearing.{OthersArentHeard};
ghost use Rattle.log_digest.specs.Laws.{EachLawfulEntryMayCome, EventsUseNoNumber};

/// An entry that meets its line of the table of lawful logs may come where it does, as far as
/// session IDs and facts go, and if it goes out it is long enough to have a number.
pub fn each_lawful_entry_may_come()
    ensures { EachLawfulEntryMayCome }
{}

/// The numbers that were used stay so where an event begins.
pub fn events_use_no_number()
    ensures { EventsUseNoNumber }
{}

/// A datagram that doesn't open in a session changes nothing of what the session took.
pub fn others_arent_heard()
    ensures { OthersArentHeard }
{}

/// The generations that are kept tell in which contexts an end takes startup datagrams, and stay
/// where an event begins.
pub fn generations_tell_startup()
    ensures { TheyTellStartup }
{}
