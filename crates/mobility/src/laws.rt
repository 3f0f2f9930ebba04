//! What tests of an address keep, for callers' proofs. The functions do nothing: the contract of
//! each is its law.

ghost use Rattle.mobility.specs.Happenings.{MovesOnReplyAlone, MovesOnItsReply, IsOverWithItsReply};

/// Whatever came before, a session moves only to a place that it was pinged at while its address
/// was another one, and with the token of that ping.
pub fn a_session_moves_on_a_reply_alone()
    ensures { MovesOnReplyAlone }
{}

/// The reply to the last ping moves the session, and that test is over then.
pub fn a_session_moves_on_the_reply_to_its_last_ping()
    ensures moves { MovesOnItsReply }
    ensures over { IsOverWithItsReply }
{}
