//! What holds of every log that an end can stand for, and of every history of many ends. The
//! functions do nothing: the contract of each is its law.

ghost use Rattle.endpoint_laws.specs.Agreed.{EveryLawfulHistoryIsAgreed, EachEndStatesItsLog, EachPrefixIsAMoment, LogsKeepTheSame};
ghost use Rattle.endpoint_laws.specs.Complete.{AdmissibleKeyingsBear, KeyingsWithoutCauseOpen};
ghost use Rattle.endpoint_laws.specs.Draws.{WhatIsDrawnOnceIsStatedOnce};
ghost use Rattle.endpoint_laws.specs.Groups.{TheGroupsAreOfTheLog};
ghost use Rattle.endpoint_laws.specs.Handed.{EveryMessageIsHandedOver};
ghost use Rattle.endpoint_laws.specs.Within.{FlowsAreWithin, FlowsHoldFew, NoAckIsOwed, PiecesHoldFew};
ghost use Rattle.endpoint_laws.specs.Laws.{EveryLogIsLawful, TheLedgerIsOfTheLog, UsesAreWithin, RowsAreWithin};
ghost use Rattle.endpoint_laws.specs.OfTheLog.{TheStateIsOfTheLog};

/// Each log that an end stands for is lawful by each map of secrets that has what the end was given
/// and learnt: each of its entries meets its line of the table.
pub fn every_log_is_lawful()
    ensures { EveryLogIsLawful }
{}

/// What an end holds and counts is what the facts of its log say, and each of these facts is
/// lawful.
pub fn ledger_of_the_log()
    ensures { TheLedgerIsOfTheLog }
{}

/// What an end keeps is what its log says: the session IDs in use, the attempts, the sessions with
/// their stages, the rows of its peers, and its moment.
pub fn state_of_the_log()
    ensures { TheStateIsOfTheLog }
{}

/// What an end keeps of the secrets of its group is what its log says: the current generation and
/// the next one, those of its attempts and of its sessions, and what is made of their secrets.
pub fn groups_of_the_log()
    ensures { TheGroupsAreOfTheLog }
{}

/// There are never more attempts, searches and sessions than may be.
pub fn uses_are_within()
    ensures { UsesAreWithin }
{}

/// There are never more rows of peers than may be.
pub fn rows_are_within()
    ensures { RowsAreWithin }
{}

/// Where no nonce is drawn twice in a lawful history, none is stated twice: a search becomes one
/// attempt at most, and then its nonce is that attempt's.
pub fn what_is_drawn_once_is_stated_once()
    ensures { WhatIsDrawnOnceIsStatedOnce }
{}

/// Each history of ends of one group that is lawful, honest and fresh is agreed: at each moment,
/// what its ends stated of their sessions with each other fits together. The group has a secret for
/// each generation, and the two ends of a session that was opened are in one.
pub fn agreed()
    ensures { EveryLawfulHistoryIsAgreed }
{}

/// What a history's list of facts, of which agreement speaks, has to do with the logs of its ends.
pub fn agreed_logs()
    ensures stated { EachEndStatesItsLog }
    ensures moments { EachPrefixIsAMoment }
    ensures kept { LogsKeepTheSame }
{}

/// Where an end takes a datagram whose first initiator's keying is admissible by its log, and goes
/// through that keying before memory is wanting, the session is born in that call, and its keying
/// goes out directly after the Born.
pub fn admissible_keyings_bear()
    ensures { AdmissibleKeyingsBear }
{}

/// Where an end takes a datagram under the session ID of an attempt, and goes through a responder's
/// keying that nothing discards, the attempt's session is opened in that call, and a ping without
/// bytes goes out in it directly after the Opened.
pub fn keyings_without_cause_open()
    ensures { KeyingsWithoutCauseOpen }
{}

/// A message is handed over in the call that makes it ready. Whatever the calls of a log were and
/// whatever they answered, no session is left with a message that could be handed over.
pub fn every_message_is_handed_over()
    ensures { EveryMessageIsHandedOver }
{}

/// Each session of an end has at most 256 flows in either direction, and their IDs are those of
/// their places, or rise.
pub fn flows_are_within()
    ensures { FlowsAreWithin }
{}

/// No flow of an end holds more than it may: a sending one at most 2,097,152 bytes and 65,536
/// fragments of messages that wait, each of at most 1,000 bytes; a receiving one at most 3,145,728
/// bytes, and at most 65,536 numbers above its lowest missing one.
pub fn flows_hold_few()
    ensures { FlowsHoldFew }
{}

/// No session of an end holds more pieces than it may: those of at most 4 packets, no two under one
/// ID, and of each packet at most 64 pieces and 4,096 bytes.
pub fn pieces_hold_few()
    ensures { PiecesHoldFew }
{}

/// Between calls no ack is owed, in no session: those that the chunks of a call owe go out in that
/// call, or are given up for want of memory.
pub fn no_ack_is_owed()
    ensures { NoAckIsOwed }
{}
