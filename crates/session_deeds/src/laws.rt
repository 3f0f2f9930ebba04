//! What a session does with its flows, as deeds. The functions do nothing: the contract of each is
//! its law.

ghost use Rattle.session_deeds.specs.Laws.{OpeningGoes, QueueingGoes, AbandoningGoes};
ghost use Rattle.session_deeds.specs.Laws.{FinishingGoes, DataGoes, HearingGoes, ProbingGoes};
ghost use Rattle.session_deeds.specs.Laws.{RejectingGoes, HandingGoes, HandingOneGoes};
ghost use Rattle.session_deeds.specs.Laws.{LosingGoes, OverdueGoes, FillingGoes, AckingGoes};
ghost use Rattle.session_deeds.specs.Laws.{ForgettingGoes, ChunkGoes, WhatIsPutIsRead};
ghost use Rattle.session_deeds.specs.Laws.{WhatIsReadFits, TheFirstFlowsAreNone};
ghost use Rattle.session_deeds.specs.Laws.{OneAfterAnotherGoes};

/// Each call on a session's sending flows that isn't refused is a deed of its flow.
pub fn calls()
    ensures opening { OpeningGoes }
    ensures queueing { QueueingGoes }
    ensures abandoning { AbandoningGoes }
    ensures finishing { FinishingGoes }
{}

/// What a session does with a chunk of its flows that isn't discarded is a list of deeds: a flow is
/// made, takes the chunk, and hands over what is ready; an ack is heard; and at an exception all
/// messages are abandoned and the flow is finished. A buffer probe is no deed.
pub fn chunks()
    ensures data_taken { DataGoes }
    ensures heard { HearingGoes }
    ensures probed { ProbingGoes }
    ensures rejected { RejectingGoes }
    ensures any { ChunkGoes }
{}

/// So is what is handed over by itself.
pub fn handing()
    ensures all { HandingGoes }
    ensures one { HandingOneGoes }
{}

/// So is what time makes lost, and what it has abandoned.
pub fn timing()
    ensures losing { LosingGoes }
    ensures overdue { OverdueGoes }
{}

/// The flow data and the acks that go into a packet are given and told by deeds, and whoever reads
/// the packet finds just these.
pub fn packets()
    ensures data_filled { FillingGoes }
    ensures acks { AckingGoes }
    ensures forgotten { ForgettingGoes }
{}

/// A packet that goes on with chunks is read as it was put, whatever its head; and numbers that are
/// read are of 64 bits.
pub fn reading()
    ensures packet { WhatIsPutIsRead }
    ensures numbers { WhatIsReadFits }
{}

/// A session begins with no flows, and one thing after another is one list of deeds after another.
pub fn chaining()
    ensures first { TheFirstFlowsAreNone }
    ensures one_after_another { OneAfterAnotherGoes }
{}
