//! The laws of opened datagrams. The functions do nothing: the contract of each states a law.

ghost use Rattle.log_packets.specs.Laws.{AHelloIsAmongItsChunks, AnAnswerIsAmongItsChunks};
ghost use Rattle.log_packets.specs.Laws.{EachOpensUnderItsOwn, KeyingsAreAmongItsChunks};
ghost use Rattle.log_packets.specs.Laws.{TheHelloIsAmongItsChunks, WhatOpensReads};

/// A datagram opens under its own session ID alone, and one of fewer than 36 bytes nowhere.
pub fn each_opens_under_its_own_session_id()
    ensures { EachOpensUnderItsOwn }
{}

/// What was opened reads as its plain packet does.
pub fn what_opens_reads()
    ensures { WhatOpensReads }
{}

/// Whether a datagram answers an attempt is told by its chunks.
pub fn an_answer_is_among_its_chunks()
    ensures { AnAnswerIsAmongItsChunks }
{}

/// Whether a datagram that went out has a keying is told by its chunks.
pub fn keyings_are_among_its_chunks()
    ensures { KeyingsAreAmongItsChunks }
{}

/// Whether a datagram has a hello that an attempt takes is told by its packet.
pub fn a_hello_is_among_its_chunks()
    ensures { AHelloIsAmongItsChunks }
{}

/// Whether a datagram answers a search is told by its chunks.
pub fn the_hello_is_among_its_chunks()
    ensures { TheHelloIsAmongItsChunks }
{}
