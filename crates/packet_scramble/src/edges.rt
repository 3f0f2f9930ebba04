//! Scrambled session IDs of short and of equal words, and where a sealed part stops to count. The
//! functions do nothing: the contract of each states what the definitions that the other contracts
//! cite are there.

ghost use Rattle.std.specs.Prelude.{◌≡◌, ◌∷◌, ◌++◌, [], replicate};
ghost use Rattle.packet_scramble.specs.Datagram.{datagram, scrambled, sid_of, unscrambled};

/// A sealed part shorter than 8 bytes counts as padded with zeros; what stands behind 8 bytes
/// doesn't count.
pub fn eight_bytes_scramble_a_session_id()
    ensures none { scrambled 7 [] ≡ 7 }
    ensures first { scrambled 0 (1 ∷ 2 ∷ 3 ∷ 4 ∷ 5 ∷ []) ≡ 0x04020304 }
    ensures seven { scrambled 7 (1 ∷ 2 ∷ 3 ∷ 4 ∷ 5 ∷ []) ≡ 0x04020303 }
    ensures eighth { scrambled 0 (replicate 7 0 ++ 1 ∷ []) ≡ 1 }
    ensures ninth { scrambled 0 (replicate 8 0 ++ 1 ∷ []) ≡ 0 }
    ensures equal_words { scrambled 0x12345678
        (0xaa ∷ 0xbb ∷ 0xcc ∷ 0xdd ∷ 0xaa ∷ 0xbb ∷ 0xcc ∷ 0xdd ∷ 0 ∷ []) ≡ 0x12345678 }
    ensures back { unscrambled 0x04020303 (1 ∷ 2 ∷ 3 ∷ 4 ∷ 5 ∷ []) ≡ 7 }
{}

/// A datagram is the scrambled session ID, most significant byte first, and the sealed part.
pub fn a_datagram_begins_with_4_bytes_of_its_session_id()
    ensures made { datagram 7 (1 ∷ 2 ∷ 3 ∷ 4 ∷ 5 ∷ []) ≡ 4 ∷ 2 ∷ 3 ∷ 3 ∷ 1 ∷ 2 ∷ 3 ∷ 4 ∷ 5 ∷ [] }
    ensures read { sid_of (4 ∷ 2 ∷ 3 ∷ 3 ∷ 1 ∷ 2 ∷ 3 ∷ 4 ∷ 5 ∷ []) ≡ 7 }
    ensures least { sid_of (0 ∷ 0 ∷ 0 ∷ 7 ∷ []) ≡ 7 }
{}
