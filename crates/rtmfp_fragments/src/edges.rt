//! Pieces at their edges and one beside. The functions do nothing: the contract of each states what
//! the definitions that the other contracts cite are there.

ghost use Rattle.std.specs.Prelude.{◌≡◌, ◌∷◌, [], ℕ, List, true, false, length, Ok, Err, Some, None};
ghost use Rattle.rtmfp_fragments.specs.declared.outcome.Gathered.TheVariants.{Again, Kept, Whole};
ghost use Rattle.rtmfp_fragments.specs.declared.outcome.PieceRefusal.TheVariants.{TooMany, Conflict, TooLong, PacketsFull};
ghost use Rattle.rtmfp_fragments.specs.declared.outcome.SplitRefusal.TheVariants as split;
ghost use Rattle.rtmfp_fragments.specs.Pieces.{piece, pieces_of, split_refusal};
ghost use Rattle.rtmfp_fragments.specs.Held.{one_piece};
ghost use Rattle.rtmfp_fragments.specs.Answers.{taken, answer_to, refusal_at, Gathers};
ghost use Rattle.rtmfp_fragments.specs.Edges.{byte, begun, first_and_last, four, three, three_and_an_old_one, with_bytes, comes, answers, held_then, worked};

/// A packet in three pieces: again, otherwise, above the last one, above 63, and the one that is
/// missing. Then four packets and a fifth, which finds room when the four are 5,000 ms old.
#[tactic(auto, unfolding(crate::specs::Held::whole))]
pub fn pieces_come_one_after_another()
    ensures answers { answers [] worked
        ≡ Ok Kept ∷ Ok Again ∷ Err (Conflict 0) ∷ Ok Kept ∷ Err (Conflict 3) ∷ Err (TooMany 64) ∷
        Ok (Whole (170 ∷ 187 ∷ 204 ∷ [])) ∷ Ok Kept ∷ Ok Kept ∷ Ok Kept ∷ Ok Kept ∷
        Err (PacketsFull 4) ∷ Ok Kept ∷ [] }
    ensures then_held { held_then [] worked ≡ one_piece 6 5000 (byte 0 true 170) ∷ [] }
    ensures too_long { (bytes : List ℕ) → length bytes ≡ 4096 →
        taken (one_piece 6 5000 (byte 0 true 170) ∷ []) 6 (piece 1 false bytes) 5000
        ≡ (one_piece 6 5000 (byte 0 true 170) ∷ [], Err (TooLong 1)) }
{}

/// What each of the first pieces leaves.
#[tactic(auto, unfolding(crate::specs::Held::whole))]
pub fn pieces_come()
    ensures first { taken [] 1 (byte 0 true 170) 0 ≡ (begun 1 ∷ [], Ok Kept) }
    ensures again { taken (begun 1 ∷ []) 1 (byte 0 true 170) 0 ≡ (begun 1 ∷ [], Ok Again) }
    ensures other { taken (begun 1 ∷ []) 1 (byte 0 true 187) 0
        ≡ (begun 1 ∷ [], Err (Conflict 0)) }
    ensures last { taken (begun 1 ∷ []) 1 (byte 2 false 204) 0 ≡ (first_and_last ∷ [], Ok Kept) }
    ensures above { taken (first_and_last ∷ []) 1 (byte 3 true 221) 0
        ≡ (first_and_last ∷ [], Err (Conflict 3)) }
    ensures many { taken (first_and_last ∷ []) 1 (byte 64 true 221) 0
        ≡ (first_and_last ∷ [], Err (TooMany 64)) }
    ensures whole { taken (first_and_last ∷ []) 1 (byte 1 true 187) 0
        ≡ ([], Ok (Whole (170 ∷ 187 ∷ 204 ∷ []))) }
{}

/// Pieces are joined by their numbers, in whatever order they come and whatever comes between. A
/// packet that was given is forgotten: its first piece begins another one. A packet of one piece is
/// given at once, an empty one too.
#[tactic(auto, unfolding(crate::specs::Held::whole))]
pub fn pieces_come_in_any_order()
    ensures backwards { answers [] (comes 0 1 2 false 204 ∷ comes 0 9 1 true 1 ∷
        comes 1 1 1 true 187 ∷ comes 2 1 0 true 170 ∷ comes 2 1 0 true 170 ∷
        comes 2 9 0 true 2 ∷ [])
        ≡ Ok Kept ∷ Ok Kept ∷ Ok Kept ∷ Ok (Whole (170 ∷ 187 ∷ 204 ∷ [])) ∷ Ok Kept ∷ Ok Kept ∷
        [] }
    ensures from_the_middle { answers [] (comes 0 1 1 true 187 ∷ comes 0 1 2 false 204 ∷
        comes 0 1 0 true 170 ∷ [])
        ≡ Ok Kept ∷ Ok Kept ∷ Ok (Whole (170 ∷ 187 ∷ 204 ∷ [])) ∷ [] }
    ensures one { taken [] 1 (byte 0 false 170) 0 ≡ ([], Ok (Whole (170 ∷ []))) }
    ensures empty { taken [] 1 (piece 0 false []) 0 ≡ ([], Ok (Whole [])) }
    ensures others_stay { taken (begun 2 ∷ first_and_last ∷ begun 3 ∷ []) 1 (byte 1 true 187) 0
        ≡ (begun 2 ∷ begun 3 ∷ [], Ok (Whole (170 ∷ 187 ∷ 204 ∷ []))) }
{}

/// A number is held otherwise by its bytes or by its mark. Nothing is above a last piece, and a last
/// piece is below nothing; both may stand beside.
#[tactic(auto, unfolding(crate::specs::Held::whole))]
pub fn pieces_conflict()
    ensures other_mark { answer_to 1 (byte 0 false 170) (begun 1 ∷ []) ≡ Err (Conflict 0) }
    ensures other_length { answer_to 1 (piece 0 true []) (begun 1 ∷ []) ≡ Err (Conflict 0) }
    ensures above_last { answer_to 1 (byte 3 false 1) (first_and_last ∷ []) ≡ Err (Conflict 3) }
    ensures second_last { answer_to 1 (byte 1 false 1) (first_and_last ∷ []) ≡ Err (Conflict 1) }
    ensures last_below { answer_to 1 (byte 1 false 1) (one_piece 1 0 (byte 2 true 1) ∷ [])
        ≡ Err (Conflict 1) }
    ensures last_above { answer_to 1 (byte 3 false 1) (one_piece 1 0 (byte 2 true 1) ∷ [])
        ≡ Ok Kept }
    ensures last_again { answer_to 1 (byte 2 false 204) (first_and_last ∷ []) ≡ Ok Again }
    ensures other_packet { answer_to 2 (byte 3 true 1) (first_and_last ∷ []) ≡ Ok Kept }
{}

/// A packet has 64 pieces at most. Of two reasons the number comes first, then what conflicts, then
/// the bytes, then the packets.
#[tactic(auto, unfolding(crate::specs::Held::whole))]
pub fn a_piece_has_its_refusals_in_order()
    ensures most { answer_to 1 (byte 63 true 1) [] ≡ Ok Kept }
    ensures most_last { answer_to 1 (byte 63 false 1) [] ≡ Ok Kept }
    ensures one_more { answer_to 1 (byte 64 true 1) [] ≡ Err (TooMany 64) }
    ensures largest { answer_to 1 (byte 18446744073709551615 false 1) []
        ≡ Err (TooMany 18446744073709551615) }
    ensures number_before_conflict { answer_to 1 (byte 64 true 1) (first_and_last ∷ [])
        ≡ Err (TooMany 64) }
    ensures number_before_bytes { (bytes : List ℕ) → length bytes ≡ 4097 →
        answer_to 1 (piece 64 true bytes) [] ≡ Err (TooMany 64) }
    ensures number_before_packets { answer_to 6 (byte 64 true 1) four ≡ Err (TooMany 64) }
    ensures conflict_before_bytes { (bytes : List ℕ) → length bytes ≡ 4096 →
        answer_to 1 (piece 3 true bytes) (first_and_last ∷ []) ≡ Err (Conflict 3) }
    ensures bytes_before_packets { (bytes : List ℕ) → length bytes ≡ 4097 →
        answer_to 6 (piece 0 true bytes) four ≡ Err (TooLong 0) }
{}

/// Of a packet 4,096 bytes are held at most. What is held already isn't refused.
#[tactic(auto, unfolding(crate::specs::Held::whole))]
pub fn a_packet_has_its_bytes()
    ensures most { (bytes : List ℕ) → length bytes ≡ 4095 →
        answer_to 1 (piece 1 true bytes) (begun 1 ∷ []) ≡ Ok Kept }
    ensures one_more { (bytes : List ℕ) → length bytes ≡ 4096 →
        answer_to 1 (piece 1 true bytes) (begun 1 ∷ []) ≡ Err (TooLong 1) }
    ensures full { (bytes : List ℕ) → length bytes ≡ 4095 →
        answer_to 1 (byte 2 true 1) (with_bytes bytes ∷ []) ≡ Err (TooLong 4096) }
    ensures empty_at_last { (bytes : List ℕ) → length bytes ≡ 4095 →
        answer_to 1 (piece 3 true []) (with_bytes bytes ∷ []) ≡ Ok Kept }
    ensures again { (bytes : List ℕ) → length bytes ≡ 4095 →
        answer_to 1 (byte 0 true 170) (with_bytes bytes ∷ []) ≡ Ok Again }
    ensures of_its_own { (bytes : List ℕ) → length bytes ≡ 4095 →
        answer_to 2 (byte 0 true 170) (with_bytes bytes ∷ []) ≡ Ok Kept }
{}

/// Four packets are held at most, each for less than 5,000 ms after the piece of it that was taken
/// first, whatever its number and whatever was taken later. A piece that is refused has let old
/// packets be forgotten.
#[tactic(auto, unfolding(crate::specs::Held::whole))]
pub fn packets_are_four_for_five_seconds()
    ensures fourth { answer_to 6 (byte 0 true 170) (begun 2 ∷ begun 3 ∷ begun 4 ∷ []) ≡ Ok Kept }
    ensures full { taken four 6 (byte 0 true 170) 0 ≡ (four, Err (PacketsFull 4)) }
    ensures still_full { taken four 6 (byte 0 true 170) 4999 ≡ (four, Err (PacketsFull 4)) }
    ensures known { taken four 5 (byte 0 true 170) 4999 ≡ (four, Ok Again) }
    ensures forgotten { taken four 6 (byte 0 true 170) 5000
        ≡ (one_piece 6 5000 (byte 0 true 170) ∷ [], Ok Kept) }
    ensures begun_again { taken four 5 (byte 0 true 170) 5000
        ≡ (one_piece 5 5000 (byte 0 true 170) ∷ [], Ok Kept) }
    ensures refused { taken four 6 (byte 64 true 170) 5000 ≡ ([], Err (TooMany 64)) }
    ensures by_the_first { answers [] (comes 0 1 1 true 187 ∷ comes 4999 1 0 true 170 ∷
        comes 4999 1 1 true 187 ∷ comes 5000 1 0 true 170 ∷ comes 5000 1 0 true 170 ∷ [])
        ≡ Ok Kept ∷ Ok Kept ∷ Ok Again ∷ Ok Kept ∷ Ok Again ∷ [] }
    ensures each_by_its_own { held_then [] (comes 0 1 0 true 1 ∷ comes 1 2 0 true 1 ∷
        comes 5000 3 0 true 1 ∷ [])
        ≡ one_piece 2 1 (byte 0 true 1) ∷ one_piece 3 5000 (byte 0 true 1) ∷ [] }
{}

/// What is refused before anything is taken: a packet whose time is over counts as not held, though
/// it is there, and what is held already isn't refused.
#[tactic(auto, unfolding(crate::specs::Held::whole))]
pub fn a_piece_is_judged_first()
    ensures old_conflict { refusal_at 4999 1 (byte 0 true 187) (begun 1 ∷ [])
        ≡ Some (Conflict 0) }
    ensures no_conflict { refusal_at 5000 1 (byte 0 true 187) (begun 1 ∷ []) ≡ None }
    ensures again { refusal_at 0 1 (byte 0 true 170) (begun 1 ∷ []) ≡ None }
    ensures too_long { (bytes : List ℕ) → length bytes ≡ 4096 →
        refusal_at 4999 1 (piece 1 true bytes) (begun 1 ∷ []) ≡ Some (TooLong 1) }
    ensures room { (bytes : List ℕ) → length bytes ≡ 4096 →
        refusal_at 5000 1 (piece 1 true bytes) (begun 1 ∷ []) ≡ None }
    ensures full { refusal_at 4999 6 (byte 0 true 170) three_and_an_old_one
        ≡ Some (PacketsFull 4) }
    ensures one_is_old { refusal_at 5000 6 (byte 0 true 170) three_and_an_old_one ≡ None }
    ensures many { refusal_at 5000 6 (byte 64 true 170) three_and_an_old_one
        ≡ Some (TooMany 64) }
{}

/// What is taken then. An old packet of the same id is forgotten and another one begun, or given; of
/// four packets one may be old where a fifth one comes.
#[tactic(auto, unfolding(crate::specs::Held::whole))]
pub fn a_piece_that_was_judged_is_gathered()
    ensures begun_again { Gathers (begun 1 ∷ begun 2 ∷ [])
        (one_piece 1 5000 (byte 0 true 187) ∷ []) 1 (byte 0 true 187) 5000 Kept }
    ensures not_again { Gathers (begun 1 ∷ []) (one_piece 1 5000 (byte 0 true 170) ∷ [])
        1 (byte 0 true 170) 5000 Kept }
    ensures not_joined { Gathers (first_and_last ∷ []) (one_piece 1 5000 (byte 1 true 187) ∷ [])
        1 (byte 1 true 187) 5000 Kept }
    ensures joined { Gathers (first_and_last ∷ begun 2 ∷ []) (begun 2 ∷ [])
        1 (byte 1 true 187) 4999 (Whole (170 ∷ 187 ∷ 204 ∷ [])) }
    ensures given_at_once { Gathers (begun 1 ∷ []) [] 1 (byte 0 false 187) 5000
        (Whole (187 ∷ [])) }
    ensures again { Gathers three_and_an_old_one three 2 (byte 0 true 170) 5000 Again }
    ensures fifth { Gathers three_and_an_old_one
        (one_piece 2 1 (byte 0 true 170) ∷ one_piece 3 1 (byte 0 true 170) ∷
        one_piece 4 1 (byte 0 true 170) ∷ one_piece 6 5000 (byte 0 true 170) ∷ [])
        6 (byte 0 true 170) 5000 Kept }
{}

/// A packet that is split has 4,096 bytes at most, and 64 pieces. That pieces have a size is asked
/// first.
pub fn a_packet_is_split_within_limits()
    ensures no_size { (packet : List ℕ) → split_refusal packet 0 ≡ Some split.NoSize }
    ensures longest { (packet : List ℕ) → length packet ≡ 4096 → split_refusal packet 64 ≡ None }
    ensures longer { (packet : List ℕ) → length packet ≡ 4097 →
        split_refusal packet 4097 ≡ Some (split.TooLong 4097) }
    ensures smaller { (packet : List ℕ) → length packet ≡ 4096 →
        split_refusal packet 63 ≡ Some (split.TooLong 4096) }
    ensures one_piece_more { (packet : List ℕ) → length packet ≡ 65 →
        split_refusal packet 1 ≡ Some (split.TooLong 65) }
    ensures most_pieces { (packet : List ℕ) → length packet ≡ 64 → split_refusal packet 1 ≡ None }
    ensures empty { split_refusal [] 1 ≡ None }
{}

/// An empty packet has one empty piece, and no last piece is empty but that.
pub fn the_last_piece_may_be_shorter()
    ensures empty { pieces_of [] 5 ≡ piece 0 false [] ∷ [] }
    ensures one { pieces_of (1 ∷ 2 ∷ []) 2 ≡ piece 0 false (1 ∷ 2 ∷ []) ∷ [] }
    ensures even { pieces_of (1 ∷ 2 ∷ 3 ∷ 4 ∷ []) 2
        ≡ piece 0 true (1 ∷ 2 ∷ []) ∷ piece 1 false (3 ∷ 4 ∷ []) ∷ [] }
    ensures odd { pieces_of (1 ∷ 2 ∷ 3 ∷ 4 ∷ 5 ∷ []) 2
        ≡ piece 0 true (1 ∷ 2 ∷ []) ∷ piece 1 true (3 ∷ 4 ∷ []) ∷ piece 2 false (5 ∷ []) ∷ [] }
{}
