//! What scrambling and datagrams keep, for callers' proofs. The functions do nothing: the contract
//! of each is its law.

ghost use Rattle.packet_scramble.specs.Datagram.{HasItsSessionId, IsDatagramOfItsSessionId, ScramblingUndoesUnscrambling, UnscramblingUndoesScrambling};

/// Unscrambling undoes scrambling.
pub fn unscrambling_undoes_scrambling()
    ensures { UnscramblingUndoesScrambling }
{}

/// Scrambling undoes unscrambling.
pub fn scrambling_undoes_unscrambling()
    ensures { ScramblingUndoesUnscrambling }
{}

/// A datagram has the session ID that it was made under, and no other.
pub fn a_datagram_has_its_session_id()
    ensures { HasItsSessionId }
{}

/// Each datagram is made of its session ID and its sealed part.
pub fn each_datagram_is_of_its_session_id()
    ensures { IsDatagramOfItsSessionId }
{}
