//! The key of a keystream, and its blocks, four at a time in lanes.

ghost use Rattle.std.specs.Prelude.{◌≡◌, ℕ, List, ◌+◌, ◌-◌, ◌%◌, ◌<◌, ◌^◌, ◌++◌, slice_index};
ghost use Rattle.std.specs.Int.{w64, to_be_bytes};
ghost use Rattle.sha2.specs.Sha256.{compress, digest_bytes, padding, word_at};
ghost use Rattle.sha256_lanes.specs.Lanes.{AreWordsOf, HasLanes, lane};
ghost use Rattle.crypto_profile.specs.Streaming.{AreBlocksFrom};

use crate::hmac_key::HmacKey;
use crate::mac::{block_with, key_block};
use sha256_lanes::{bytes_of, compress, initial, load_be, splat, value_of, words_of_two};
use std::marker::Model;
use std::simd::prelude::*;

/// A key of 32 bytes, hashed for a block alone, and the hash values after its inner and its outer
/// block, from which four blocks go on at once.
///
/// Contracts see the key.
#[derive(Drop)]
pub struct StreamKey {
    alone: HmacKey,
    inner: [u32; 8],
    outer: [u32; 8],
}

impl Model for StreamKey {
    ghost use Rattle.std.specs.Prelude.{List, ℕ};
    ghost use Rattle.crypto_profile.specs.Streaming.{IsHashed};

    ghost Value = { List ℕ };

    ghost view = { λ k. k.alone };

    ghost invariant = { λ k. IsHashed k.alone k.inner k.outer };
}

impl StreamKey {
    ghost use Rattle.std.specs.Prelude.{◌≡◌, ◌+◌, ◌<◌, ◌^◌};
    ghost use Rattle.crypto_profile.specs.Sealing.{stream_block};
    ghost use Rattle.crypto_profile.specs.Streaming.{AreBlocksFrom};

    /// The key of these bytes.
    pub fn of(key: &[u8; 32]) -> StreamKey
        ensures { result ≡ key.now }
    {
        let block = key_block(key);
        let words = words_of_two(&block_with(&block, 0x36), &block_with(&block, 0x5c));
        let after = compress(&initial(), &words);
        StreamKey {
            alone: HmacKey::of(key),
            inner: value_of(&after, 0),
            outer: value_of(&after, 1),
        }
    }

    /// The bytes of the key.
    pub fn bytes(&self) -> &[u8; 32]
        ensures { result.now ≡ self.now }
    {
        self.alone.bytes()
    }

    /// The same key, which isn't hashed again.
    pub fn copy(&self) -> StreamKey
        ensures { result ≡ self.now }
    {
        StreamKey {
            alone: self.alone.copy(),
            inner: self.inner,
            outer: self.outer,
        }
    }

    // Block i of the keystream of a number. Four lanes would cost more than it does alone.
    pub(crate) fn one_block(&self, number: &[u8; 16], i: u64) -> [u8; 32]
        ensures { result ≡ stream_block self.now number.now i }
    {
        let mut stream = self.alone.begin();
        stream.update(number);
        stream.finish(&i.to_be_bytes())
    }

    // Block i of the keystream of a number, and the three after it.
    pub(crate) fn four_blocks(&self, number: &[u8; 16], i: u64) -> [[u8; 32]; 4]
        requires { i + 3 < 2 ^ 64 }
        ensures { AreBlocksFrom self.now number.now result i }
    {
        let within = compress(&splat(&self.inner), &inner_words(number, i));
        let after = compress(&splat(&self.outer), &outer_words(&within));
        [
            bytes_of(&value_of(&after, 0)),
            bytes_of(&value_of(&after, 1)),
            bytes_of(&value_of(&after, 2)),
            bytes_of(&value_of(&after, 3)),
        ]
    }
}

// The four blocks among which block i is, made anew where it is the first of them.
#[inline(always)]
pub(crate) fn blocks_at(
    key: &StreamKey,
    number: &[u8; 16],
    i: u64,
    before: [[u8; 32]; 4],
) -> [[u8; 32]; 4]
    requires { i + 3 < 2 ^ 64 }
    ensures { (0 < i % 4 → AreBlocksFrom key.now number.now before (i - i % 4)) →
        AreBlocksFrom key.now number.now result (i - i % 4) }
{
    if i % 4 == 0 {
        key.four_blocks(number, i)
    } else {
        before
    }
}

// The two words of a counter.
#[inline(always)]
fn counter(i: u64) -> [u32; 2]
    ensures high { slice_index result 0 ≡ word_at (to_be_bytes w64 i) 0 }
    ensures low { slice_index result 1 ≡ word_at (to_be_bytes w64 i) 4 }
{
    let bytes = i.to_be_bytes();
    [load_be(&bytes, 0), load_be(&bytes, 4)]
}

// The words of four counters, one after another.
#[inline(always)]
fn counters(i: u64) -> (u32x4, u32x4)
    requires { i + 3 < 2 ^ 64 }
    ensures high { HasLanes result.0 (λ j. word_at (to_be_bytes w64 (i + j)) 0) }
    ensures low { HasLanes result.1 (λ j. word_at (to_be_bytes w64 (i + j)) 4) }
{
    let [high0, low0] = counter(i);
    let [high1, low1] = counter(i + 1);
    let [high2, low2] = counter(i + 2);
    let [high3, low3] = counter(i + 3);
    (
        u32x4::from_array([high0, high1, high2, high3]),
        u32x4::from_array([low0, low1, low2, low3]),
    )
}

// The last blocks of the inner messages: a number, a counter each, and the padding of 88 bytes.
#[inline(always)]
fn inner_words(number: &[u8; 16], i: u64) -> [u32x4; 16]
    requires { i + 3 < 2 ^ 64 }
    ensures { (j : ℕ) → j < 4 →
        AreWordsOf (lane result j) (number.now ++ (to_be_bytes w64 (i + j) ++ padding 88)) }
{
    let (high, low) = counters(i);
    let zero = u32x4::splat(0);
    [
        u32x4::splat(load_be(number, 0)),
        u32x4::splat(load_be(number, 4)),
        u32x4::splat(load_be(number, 8)),
        u32x4::splat(load_be(number, 12)),
        high,
        low,
        u32x4::splat(0x8000_0000),
        zero,
        zero,
        zero,
        zero,
        zero,
        zero,
        zero,
        zero,
        u32x4::splat(704),
    ]
}

// The last blocks of the outer messages: the digests of the inner ones, and the padding of 96 bytes.
#[inline(always)]
fn outer_words(h: &[u32x4; 8]) -> [u32x4; 16]
    ensures { (s b : List ℕ) (j : ℕ) → j < 4 → lane h.now j ≡ compress s b →
        AreWordsOf (lane result j) (digest_bytes (lane h.now j) 8 ++ padding 96) }
{
    let zero = u32x4::splat(0);
    [
        h[0],
        h[1],
        h[2],
        h[3],
        h[4],
        h[5],
        h[6],
        h[7],
        u32x4::splat(0x8000_0000),
        zero,
        zero,
        zero,
        zero,
        zero,
        zero,
        u32x4::splat(768),
    ]
}
