//! What a reassembly keeps over every list of calls, and what the pieces of a packet are, for callers'
//! proofs. The functions do nothing: the contract of each is its law.

ghost use Rattle.rtmfp_fragments.specs.Cuts.{CutsIntoStretches, HasMorePieces};
ghost use Rattle.rtmfp_fragments.specs.Happenings.{StaysWithinLimits, JoinsByNumber, GivesAllPieces, KeepsWhatIsNotWhole, RefusesNoTruePiece, GivesThePacket, GivesOnce, GivesAtLast, RefusesNoneThatIsTaken, AnswersTheRefusal};

/// The pieces of a packet are its stretches of one size, numbered from 0, of which the last may be
/// shorter; they are more than 64 exactly where the packet is longer than 64 of them.
pub fn a_packet_is_cut_into_stretches()
    ensures pieces { CutsIntoStretches }
    ensures count { HasMorePieces }
{}

/// A packet that is given is the join of the pieces that were held, in the order of their numbers
/// and not in that of their coming. None of them is left out.
pub fn a_packet_is_joined_by_number()
    ensures join { JoinsByNumber }
    ensures all { GivesAllPieces }
{}

/// A packet is given as soon as all its pieces are there.
pub fn a_whole_packet_is_not_kept()
    ensures { KeepsWhatIsNotWhole }
{}

/// Whatever came, at most 4 packets of 4,096 bytes are held, each of at most 64 pieces, and no id or
/// number stands twice among them.
pub fn what_is_held_has_its_limits()
    ensures { StaysWithinLimits }
{}

/// Where all pieces that were taken under an id are of one packet, no piece of that packet is refused
/// but for want of memory or where four other packets are held.
pub fn a_piece_of_the_packet_is_not_refused()
    ensures { RefusesNoTruePiece }
{}

/// Where all pieces that were taken under an id are of one packet, that packet is what is given.
pub fn what_is_given_is_the_packet()
    ensures { GivesThePacket }
{}

/// Where no number is taken twice under an id, a packet is given under it once at most.
pub fn a_packet_is_given_once()
    ensures { GivesOnce }
{}

/// Where all pieces of a packet were taken, and none was forgotten, the packet was given.
pub fn a_packet_is_given_at_last()
    ensures { GivesAtLast }
{}

/// A piece isn't refused exactly where it is answered what it was, but for want of memory. A refusal
/// is the answer, and nothing but the forgetting has changed then.
pub fn a_refusal_is_the_answer()
    ensures none { RefusesNoneThatIsTaken }
    ensures some { AnswersTheRefusal }
{}
