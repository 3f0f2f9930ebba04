//! The numbers that an ack acknowledges above its cumulative number.

ghost use Rattle.std.specs.Prelude.{◌≡◌, ℕ, ◌+◌, ◌*◌, ◌<◌, ◌⊎◌, [], ◌∷◌, List, true, false, length, MatchOption, IfSome};
ghost use Rattle.std.specs.Iterator.{YieldsFirst, item_count};
ghost use Rattle.rtmfp_data_chunks.specs.Chunk.{data_chunk};
ghost use Rattle.rtmfp_data_chunks.specs.Acked.{AckTells, acked, is_set, spans_of_bits, spans_of_pairs};
ghost use Rattle.rtmfp_data_chunks.specs.AckedLeft.{bits_left, AreThere};

use crate::view::DataView;
use rtmfp_vlu::read_vlu;
use std::marker::Model;

/// An iterator of the first and the last number of each span that an ack acknowledges above its
/// cumulative number, rising. It ends before a pair that isn't whole, and before a pair or a bit
/// that passes 64 bits. Contracts see the spans that are left.
#[derive(Drop)]
pub struct AckedSpans<'a> {
    source: Source<'a>,
}

impl<'a> Model for AckedSpans<'a> {
    ghost use Rattle.std.specs.Prelude.{List, ℕ};
    ghost use Rattle.rtmfp_data_chunks.specs.AckedLeft.{source_left, IsSource};

    ghost Value = { List (ℕ × ℕ) };

    ghost view = { λ a. source_left a.source };

    ghost invariant = { λ a. IsSource a.source };
}

/// What is left of an ack.
#[derive(Clone, Copy)]
enum Source<'a> {
    /// Pairs, above a number.
    Pairs(u64, &'a [u8]),
    Bits(Bits<'a>),
}

/// So many bits from the one at an index on. Bit 0 speaks of `upto` + 2.
#[derive(Clone, Copy)]
struct Bits<'a> {
    upto: u64,
    bits: &'a [u8],
    at: u64,
    left: u64,
}

/// A span, and the bytes after its pair.
#[derive(Clone, Copy)]
struct PairSpan<'a> {
    first: u64,
    last: u64,
    after: &'a [u8],
}

/// A span, and the bits after it.
#[derive(Clone, Copy)]
struct BitSpan<'a> {
    first: u64,
    last: u64,
    after: Bits<'a>,
}

/// The span of the pair in front, above a number.
fn next_in_pairs(above: u64, bytes: &[u8]) -> Option<PairSpan<'_>>
    ensures { MatchOption result (spans_of_pairs above bytes.now
        ≡ []) (λ s. spans_of_pairs above bytes.now
        ≡ (s.first, s.last) ∷ spans_of_pairs s.last s.after.now) }
{
    let Ok((holes, used)) = read_vlu(bytes) else {
        return None;
    };
    let (_, bytes) = bytes.split_at(used);
    let Ok((received, used)) = read_vlu(bytes) else {
        return None;
    };
    let (_, after) = bytes.split_at(used);
    let first = u128::from(above) + u128::from(holes) + 2;
    let last = first + u128::from(received);
    if last > u128::from(u64::MAX) {
        return None;
    }
    Some(PairSpan {
        first: first as u64,
        last: last as u64,
        after,
    })
}

/// How many bits from the one at an index on are not set, up to the end of its byte.
fn unset_ahead(bits: &[u8], upto: u64, at: u64) -> u64
    requires { at < 8 * length bits.now }
    ensures unset { (j : ℕ) → j < result → is_set upto bits.now (upto + 2 + at + j) ≡ false }
    ensures stops { result ≡ 0 → is_set upto bits.now (upto + 2 + at) ≡ true }
{
    let from = at % 8;
    let rest = bits[(at / 8) as usize] >> from;
    u64::from(rest.trailing_zeros()).min(8 - from)
}

/// How many bits from the one at an index on are set, up to the end of its byte.
fn set_ahead(bits: &[u8], upto: u64, at: u64) -> u64
    requires { at < 8 * length bits.now }
    ensures set { (j : ℕ) → j < result → is_set upto bits.now (upto + 2 + at + j) ≡ true }
    ensures stops { result ≡ 0 → is_set upto bits.now (upto + 2 + at) ≡ false }
{
    let from = at % 8;
    let rest = bits[(at / 8) as usize] >> from;
    u64::from(rest.trailing_ones()).min(8 - from)
}

/// The bits from the first one on that is set, or none.
fn skip_unset(bits: Bits<'_>) -> Bits<'_>
    requires { AreThere bits }
    ensures there { AreThere result }
    ensures same { bits_left result ≡ bits_left bits.entry }
    ensures found { (result.left ≡ 0) ⊎
        (is_set result.upto result.bits.now (result.upto + 2 + result.at) ≡ true) }
{
    let mut rest = bits;
    while rest.left > 0 {
        let unset = unset_ahead(rest.bits, rest.upto, rest.at).min(rest.left);
        if unset == 0 {
            break;
        }
        rest.at += unset;
        rest.left -= unset;
    }
    rest
}

/// The span that begins with the first bit, which is set.
fn span_from(bits: Bits<'_>) -> BitSpan<'_>
    requires there { AreThere bits }
    requires some { 0 < bits.left }
    requires set { is_set bits.upto bits.bits.now (bits.upto + 2 + bits.at) ≡ true }
    ensures there { AreThere result.after }
    ensures first { bits_left bits.entry ≡ (result.first, result.last) ∷ bits_left result.after }
{
    let first = bits.upto + 2 + bits.at;
    let mut last = first;
    let mut after = bits;
    after.at += 1;
    after.left -= 1;
    while after.left > 0 {
        let set = set_ahead(after.bits, after.upto, after.at).min(after.left);
        if set == 0 {
            break;
        }
        last += set;
        after.at += set;
        after.left -= set;
    }
    BitSpan { first, last, after }
}

/// The next span of set bits.
fn next_in_bits(bits: Bits<'_>) -> Option<BitSpan<'_>>
    requires { AreThere bits }
    ensures there { IfSome result (λ r. AreThere r.after) }
    ensures first { MatchOption result (bits_left bits.entry ≡ []) (λ r. bits_left bits.entry
        ≡ (r.first, r.last) ∷ bits_left r.after) }
{
    let rest = skip_unset(bits);
    if rest.left == 0 {
        return None;
    }
    Some(span_from(rest))
}

impl<'a> AckedSpans<'a> {
    /// The spans that pairs tell of, above a cumulative number (RFC 7016 section 2.3.14).
    pub fn of_pairs(upto: u64, pairs: &'a [u8]) -> AckedSpans<'a>
        ensures { result ≡ spans_of_pairs upto pairs.now }
    {
        AckedSpans {
            source: Source::Pairs(upto, pairs),
        }
    }

    /// The spans of the set bits, above a cumulative number (RFC 7016 section 2.3.13).
    pub fn of_bits(upto: u64, bits: &'a [u8]) -> AckedSpans<'a>
        ensures { result ≡ spans_of_bits upto bits.now }
    {
        let fitting = (u64::MAX - upto).saturating_sub(1);
        let left = (bits.len() as u64).saturating_mul(8).min(fitting);
        AckedSpans {
            source: Source::Bits(Bits {
                upto,
                bits,
                at: 0,
                left,
            }),
        }
    }

    /// The same spans again, from the one that is next here.
    pub fn iter(&self) -> AckedSpans<'a>
        ensures { result ≡ self.now }
    {
        AckedSpans {
            source: self.source,
        }
    }
}

impl<'a> Iterator for AckedSpans<'a> {
    type Item = (u64, u64);

    ghost next_gives = { YieldsFirst (λ s. s) };

    ghost remaining = { item_count (λ s. s) };

    fn next(&mut self) -> Option<(u64, u64)> {
        match self.source {
            Source::Pairs(last, rest) => match next_in_pairs(last, rest) {
                Some(found) => {
                    self.source = Source::Pairs(found.last, found.after);
                    Some((found.first, found.last))
                }
                None => None,
            },
            Source::Bits(bits) => match next_in_bits(bits) {
                Some(found) => {
                    self.source = Source::Bits(found.after);
                    Some((found.first, found.last))
                }
                None => None,
            },
        }
    }
}

impl<'a> DataView<'a> {
    /// The first and the last number of each span that an ack acknowledges above its cumulative
    /// number. Other chunks acknowledge none.
    pub fn acked(&self) -> AckedSpans<'a>
        ensures acked { result ≡ acked (data_chunk self.now) }

        // Those whose bit is set, or those that the pairs tell of.
        ensures tells { AckTells (data_chunk self.now) result }
    {
        match self {
            DataView::AckBitmap { upto, bits, .. } => AckedSpans::of_bits(*upto, bits),
            DataView::AckRanges { upto, pairs, .. } => AckedSpans::of_pairs(*upto, pairs),
            _ => AckedSpans::of_pairs(0, &[]),
        }
    }
}
