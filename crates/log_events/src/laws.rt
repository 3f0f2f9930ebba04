//! The laws of the entries of one event. The functions do nothing: the contract of each states a
//! law.

ghost use Rattle.log_events.specs.Laws.{ArrivalsStay, BirthsAreTold, CausesAreTold, EventsGoOn, FactsAreFound, StartupStays, TakingsAreTold};

/// An event is underway where it begins, and stays so with each entry that meets its line of the
/// table of lawful logs.
pub fn events_go_on()
    ensures { EventsGoOn }
{}

/// The startup contexts stay in an event whose call neither learns a secret nor advances.
pub fn startup_stays()
    ensures { StartupStays }
{}

/// Where the event's datagram opened when it began, it opens at each entry.
pub fn arrivals_stay()
    ensures { ArrivalsStay }
{}

/// Where a session begins, the event's datagram opened in startup of the generation that is told.
pub fn births_are_told()
    ensures { BirthsAreTold }
{}

/// What the session answered that was given the event's datagram tells whether it takes it.
pub fn takings_are_told()
    ensures { TakingsAreTold }
{}

/// What is kept tells what the line of a fact asks to be found.
pub fn facts_are_found()
    ensures { FactsAreFound }
{}

/// What is found of the event's datagram is what datagrams that go out are judged by.
pub fn causes_are_told()
    ensures { CausesAreTold }
{}
