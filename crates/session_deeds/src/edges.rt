//! Rows of what is read of a packet, which deeds may be done, and what they state and give, each
//! value beside the edge. The functions do nothing.

ghost use Rattle.session_deeds.specs.Edges.{ReadsInTurn, MayBeDone, IsStatedAndSaid};

/// What data, next and ack chunks have for flows, each read behind the one before it.
pub fn chunks_are_read_in_turn()
    ensures { ReadsInTurn }
{}

/// A flow is opened once and made once, and takes and hears what came of it, and nothing else.
pub fn what_may_be_done()
    ensures { MayBeDone }
{}

/// Deeds state the messages that are queued and handed over and the numbers that are abandoned, and
/// they give what the sender has to send, and tell what the receiver took.
pub fn what_is_stated_and_said()
    ensures { IsStatedAndSaid }
{}
