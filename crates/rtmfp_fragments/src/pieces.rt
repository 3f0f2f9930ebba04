//! The pieces of a packet.

ghost use Rattle.std.specs.Prelude.{◌≡◌};
ghost use Rattle.std.specs.Iterator.{YieldsFirstBy, item_count};
ghost use Rattle.rtmfp_fragments.specs.Pieces.{piece_parts};
ghost use Rattle.rtmfp_fragments.specs.Answers.{split_into};

use crate::outcome::SplitRefusal;
use std::marker::Model;

/// A packet has at most so many bytes (own).
pub(crate) const MOST_BYTES: usize = 4096;

/// It has at most so many pieces (own).
pub(crate) const MOST_PIECES: usize = 64;

/// A piece of a packet, as a part of its bytes: what a fragment chunk says of it but for the packet's
/// id (RFC 7016 section 2.3.1).
#[derive(Clone, Copy, Debug, Drop)]
pub struct Piece<'a> {
    /// From 0 on, in the order of the bytes.
    pub number: u64,
    /// Whether a piece follows: all but the last one have this mark.
    pub more: bool,
    pub bytes: &'a [u8],
}

/// The pieces of a packet, one after another. Contracts see the list of those that are left.
#[derive(Drop)]
pub struct Pieces<'a> {
    rest: Option<&'a [u8]>,
    number: u64,
    size: usize,
}

impl<'a> Model for Pieces<'a> {
    ghost use Rattle.std.specs.Prelude.{List, ◌≤◌, ◌+◌, ◌^◌, ◌<◌, length};
    ghost use Rattle.rtmfp_fragments.specs.Pieces.{PieceParts, left_of, rest_len};

    ghost Value = { List PieceParts };

    ghost view = { λ p. left_of p.number p.size p.rest };

    ghost invariant = { λ p. (0 < p.size) × (p.number + rest_len p.rest ≤ 8192) };
}

impl<'a> Iterator for Pieces<'a> {
    type Item = Piece<'a>;

    ghost next_gives = { YieldsFirstBy piece_parts (λ s. s) };

    ghost remaining = { item_count (λ s. s) };

    fn next(&mut self) -> Option<Piece<'a>> {
        let Some(rest) = self.rest else {
            return None;
        };
        let number = self.number;
        if rest.len() <= self.size {
            self.rest = None;
            return Some(Piece {
                number,
                more: false,
                bytes: rest,
            });
        }
        let (bytes, after) = rest.split_at(self.size);
        self.rest = Some(after);
        self.number = number + 1;
        Some(Piece {
            number,
            more: true,
            bytes,
        })
    }
}

/// Cuts a packet into pieces of so many bytes, of which the last may be shorter (own). An empty packet
/// has one empty piece. `SplitRefusal` has the reasons why not, in their order. It takes no memory.
pub fn split(packet: &[u8], size: usize) -> Result<Pieces<'_>, SplitRefusal>
    ensures { result ≡ split_into packet.now size }
{
    if size == 0 {
        return Err(SplitRefusal::NoSize);
    }
    let len = packet.len();
    if len > MOST_BYTES || (size < MOST_PIECES && len > MOST_PIECES * size) {
        return Err(SplitRefusal::TooLong(len as u64));
    }
    Ok(Pieces {
        rest: Some(packet),
        number: 0,
        size,
    })
}
