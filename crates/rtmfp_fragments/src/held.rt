//! The pieces that are held of one packet.

ghost use Rattle.std.specs.Prelude.{◌≡◌, ◌++◌, ◌∷◌, [], ◌≤◌, ◌+◌, length, OnOk, OnErr, IfOk, is_some, true, Some};
ghost use Rattle.std.specs.Option.{option_map};
ghost use Rattle.rtmfp_fragments.specs.Pieces.{piece, piece_parts};
ghost use Rattle.rtmfp_fragments.specs.Held.{piece_at, is_same, is_again, are_at_odds, conflicts, held_bytes, joined, whole, one_piece, with_one_more, has_id, is_kept};

use crate::pieces::{MOST_BYTES, MOST_PIECES, Piece};
use std::alloc::{AllocError, Global};
use std::marker::Model;

/// A packet is held for less than so many milliseconds after its first piece was taken (own).
const HELD_FOR: u64 = 5000;

/// A piece that is held.
#[derive(Drop)]
pub struct HeldPiece {
    number: u64,
    more: bool,
    bytes: Vec<u8>,
}

impl Model for HeldPiece {
    ghost use Rattle.rtmfp_fragments.specs.Pieces.{PieceParts, piece};

    ghost Value = { PieceParts };

    ghost view = { λ x. piece x.number x.more x.bytes.items };
}

impl HeldPiece {
    /// A copy of a piece.
    pub fn copy_of(alloc: Global, x: &Piece<'_>) -> Result<HeldPiece, AllocError>
        ensures { IfOk result (λ held. held ≡ piece_parts x.now) }
    {
        Ok(HeldPiece {
            number: x.number,
            more: x.more,
            bytes: Vec::from_slice(alloc, x.bytes)?,
        })
    }

    /// Whether it is this very piece.
    fn is_same(&self, x: &Piece<'_>) -> bool
        ensures { result ≡ is_same (piece_parts x.now) self.now }
    {
        self.number == x.number && self.more == x.more && self.bytes.as_slice() == x.bytes
    }

    /// Whether it and another piece can't both be of one packet.
    fn is_at_odds(&self, x: &Piece<'_>) -> bool
        ensures { result ≡ are_at_odds (piece_parts x.now) self.now }
    {
        (self.number == x.number && !self.is_same(x))
            || (!self.more && self.number < x.number)
            || (!x.more && x.number < self.number)
    }

    /// The piece, as it was taken.
    fn view(&self) -> Piece<'_>
        ensures { piece_parts result ≡ self.now }
    {
        Piece {
            number: self.number,
            more: self.more,
            bytes: self.bytes.as_slice(),
        }
    }
}

/// Whether this very piece is held.
pub fn is_again(pieces: &[HeldPiece], x: &Piece<'_>) -> bool
    ensures { result ≡ is_again (piece_parts x.now) pieces.now }
{
    pieces.iter().any(|held| held.is_same(x))
}

/// Whether one that is held can't be of one packet with this piece.
pub fn conflicts(pieces: &[HeldPiece], x: &Piece<'_>) -> bool
    ensures { result ≡ conflicts (piece_parts x.now) pieces.now }
{
    pieces.iter().any(|held| held.is_at_odds(x))
}

/// The piece of a number, of those that are held and one more.
fn piece_at<'x>(pieces: &'x [HeldPiece], x: &'x Piece<'x>, number: u64) -> Option<Piece<'x>>
    ensures { option_map piece_parts result
        ≡ piece_at number (pieces.now ++ piece_parts x.now ∷ []) }
{
    let mut rest = pieces;
    while let [first, others @ ..] = rest {
        let held = first.view();
        if held.number == number {
            return Some(held);
        }
        rest = others;
    }
    if x.number == number { Some(*x) } else { None }
}

/// Whether all pieces of a packet are there, with one more than are held.
pub fn is_whole<'x>(pieces: &'x [HeldPiece], x: &'x Piece<'x>) -> bool
    ensures { result ≡ is_some (whole (pieces.now ++ piece_parts x.now ∷ [])) }
{
    let mut number: u64 = 0;
    let mut most = MOST_PIECES;
    while most > 0 {
        match piece_at(pieces, x, number) {
            None => return false,
            Some(found) => {
                if !found.more {
                    return true;
                }
            }
        }
        number += 1;
        most -= 1;
    }
    false
}

/// The bytes of a packet, all pieces of which are there, with one more than are held.
pub fn join<'x>(
    alloc: Global,
    pieces: &'x [HeldPiece],
    x: &'x Piece<'x>,
) -> Result<Vec<u8>, AllocError>
    requires { is_some (whole (pieces.now ++ piece_parts x.now ∷ [])) ≡ true }
    ensures { IfOk result (λ all. whole (pieces.now ++ piece_parts x.now ∷ []) ≡ Some all.items) }
{
    let mut all = Vec::new(alloc);
    let mut number: u64 = 0;
    let mut most = MOST_PIECES;
    while most > 0 {
        let Some(found) = piece_at(pieces, x, number) else {
            return Ok(all);
        };
        all.extend_from_slice(found.bytes)?;
        if !found.more {
            return Ok(all);
        }
        number += 1;
        most -= 1;
    }
    Ok(all)
}

/// A packet that isn't whole: its id, the moment at which its first piece was taken, how many bytes
/// are held of it, and its pieces in the order in which they were taken.
#[derive(Drop)]
pub struct Packet {
    id: u64,
    at: u64,
    held: usize,
    pieces: Vec<HeldPiece>,
}

impl Model for Packet {
    ghost use Rattle.std.specs.Prelude.{◌≡◌, ◌≤◌};
    ghost use Rattle.rtmfp_fragments.specs.Held.{PacketParts, held_bytes};

    ghost Value = { PacketParts };

    ghost view = { λ p. record { id = p.id; at = p.at; pieces = p.pieces.items } };

    ghost invariant = { λ p. (p.held ≡ held_bytes p.pieces.items) × (p.held ≤ 4096) };
}

impl Packet {
    /// A packet of one piece.
    pub fn one(alloc: Global, id: u64, moment: u64, x: &Piece<'_>) -> Result<Packet, AllocError>
        requires { length x.now.bytes.now ≤ 4096 }
        ensures { IfOk result (λ p. p ≡ one_piece id moment (piece_parts x.now)) }
    {
        let mut pieces = Vec::new(alloc);
        pieces.push(HeldPiece::copy_of(alloc, x)?)?;
        Ok(Packet {
            id,
            at: moment,
            held: x.bytes.len(),
            pieces,
        })
    }

    /// Whether it is the packet of this id.
    pub fn has_id(&self, id: u64) -> bool
        ensures { result ≡ has_id id self.now }
    {
        self.id == id
    }

    /// Whether its first piece was taken less than 5,000 ms before.
    pub fn is_kept(&self, moment: u64) -> bool
        ensures { result ≡ is_kept moment self.now }
    {
        moment.saturating_sub(self.at) < HELD_FOR
    }

    /// How many bytes are held of it.
    pub fn held(&self) -> usize
        ensures bytes { result ≡ held_bytes self.now.pieces }
        ensures few { result ≤ 4096 }
    {
        self.held
    }

    /// The pieces that are held of it, in the order in which they were taken.
    pub fn pieces(&self) -> &[HeldPiece]
        ensures { result.now ≡ self.now.pieces }
    {
        self.pieces.as_slice()
    }

    /// Holds one more piece.
    pub fn add(&mut self, alloc: Global, x: &Piece<'_>) -> Result<(), AllocError>
        requires { held_bytes self.old.pieces + length x.now.bytes.now ≤ 4096 }
        ensures ok { OnOk result (self.new ≡ with_one_more self.old (piece_parts x.now)) }
        ensures err { OnErr result (self.new ≡ self.old) }
    {
        let copy = HeldPiece::copy_of(alloc, x)?;
        let held = self.held;
        self.pieces.push(copy)?;
        self.held = held + x.bytes.len();
        Ok(())
    }
}
