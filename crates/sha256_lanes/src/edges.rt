//! Lanes of vectors, and the standard's examples of the hash function (FIPS 180-4). The functions do
//! nothing: the contract of each states what the definitions that the other contracts cite are there.

ghost use Rattle.std.specs.Prelude.{◌≡◌, ◌∷◌, ◌++◌, [], codes, replicate};
ghost use Rattle.sha2.specs.Sha256.{compress, digest_bytes, initial_hash_256, word_at};
ghost use Rattle.sha256_lanes.specs.Lanes.{lane};

/// A lane has a word of each vector; a word of a block, and of a digest, has its high byte first.
pub fn a_lane_has_a_word_of_each_vector()
    ensures first { lane ((1 ∷ 2 ∷ 3 ∷ 4 ∷ []) ∷ (5 ∷ 6 ∷ 7 ∷ 8 ∷ []) ∷ []) 0 ≡ 1 ∷ 5 ∷ [] }
    ensures last { lane ((1 ∷ 2 ∷ 3 ∷ 4 ∷ []) ∷ (5 ∷ 6 ∷ 7 ∷ 8 ∷ []) ∷ []) 3 ≡ 4 ∷ 8 ∷ [] }
    ensures word { word_at (codes "abcdefgh") 4 ≡ 0x65666768 }
    ensures digest { digest_bytes (0x61626364 ∷ 0x65666768 ∷ []) 2 ≡ codes "abcdefgh" }
{}

/// The block of the message "abc", and the two blocks of a message of 56 bytes, the second of them
/// from the hash value after the first, which stands in lane 3 beside the initial one in lane 0.
pub fn the_examples_of_the_standard_are_so()
    ensures one_block { compress initial_hash_256 (codes "abc" ++ 0x80 ∷ replicate 59 0 ++ 24 ∷ [])
        ≡ 0xba7816bf ∷ 0x8f01cfea ∷ 0x414140de ∷ 0x5dae2223
        ∷ 0xb00361a3 ∷ 0x96177a9c ∷ 0xb410ff61 ∷ 0xf20015ad ∷ [] }
    ensures first_of_two { compress initial_hash_256
        (codes "abcdbcdecdefdefgefghfghighijhijkijkljklmklmnlmnomnopnopq" ++ 0x80 ∷ replicate 7 0)
        ≡ 0x85e655d6 ∷ 0x417a1795 ∷ 0x3363376a ∷ 0x624cde5c
        ∷ 0x76e09589 ∷ 0xcac5f811 ∷ 0xcc4b32c1 ∷ 0xf20e533a ∷ [] }
    ensures second_of_two { compress (lane ((0x6a09e667 ∷ 0 ∷ 0 ∷ 0x85e655d6 ∷ []) ∷
        (0xbb67ae85 ∷ 0 ∷ 0 ∷ 0x417a1795 ∷ []) ∷
        (0x3c6ef372 ∷ 0 ∷ 0 ∷ 0x3363376a ∷ []) ∷
        (0xa54ff53a ∷ 0 ∷ 0 ∷ 0x624cde5c ∷ []) ∷
        (0x510e527f ∷ 0 ∷ 0 ∷ 0x76e09589 ∷ []) ∷
        (0x9b05688c ∷ 0 ∷ 0 ∷ 0xcac5f811 ∷ []) ∷
        (0x1f83d9ab ∷ 0 ∷ 0 ∷ 0xcc4b32c1 ∷ []) ∷
        (0x5be0cd19 ∷ 0 ∷ 0 ∷ 0xf20e533a ∷ []) ∷ []) 3)
        (replicate 62 0 ++ 1 ∷ 0xc0 ∷ [])
        ≡ 0x248d6a61 ∷ 0xd20638b8 ∷ 0xe5c02693 ∷ 0x0c3e6039
        ∷ 0xa33ce459 ∷ 0x64ff2167 ∷ 0xf6ecedd4 ∷ 0x19db06c1 ∷ [] }
{}
