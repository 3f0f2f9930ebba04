//! What is answered to a packet and to a piece.

ghost use Rattle.std.specs.Prelude.{◌≡◌, ◌≤◌, length};

use std::marker::Model;
use thiserror::Error;

/// Why a packet isn't split: the first of these that stands (own).
#[derive(Clone, Copy, Debug, PartialEq, Eq, Error)]
pub enum SplitRefusal {
    /// Pieces of no bytes were asked for.
    #[error("a piece has at least one byte")]
    NoSize,
    /// The packet has more than 4,096 bytes, or would have more than 64 pieces. The value is how
    /// many bytes it has.
    #[error("a packet of {0} bytes is too long")]
    TooLong(u64),
}

/// Why a piece isn't held: the first of these that stands (own). Nothing but the forgetting of old
/// packets has changed then.
#[derive(Clone, Copy, Debug, PartialEq, Eq, Error)]
pub enum PieceRefusal {
    /// The number is 64 or more. The value is the number.
    #[error("number {0} is above 63")]
    TooMany(u64),
    /// Another piece of this number is held, or a last piece below it, or it is a last piece below
    /// one that is held. The value is the number.
    #[error("number {0} conflicts with what is held")]
    Conflict(u64),
    /// The bytes that are held of the packet, and these, are more than 4,096. The value is how many
    /// are held.
    #[error("{0} bytes are held and there is no room")]
    TooLong(u64),
    /// 4 packets are held, and none of this id. The value is how many are held.
    #[error("{0} packets are held")]
    PacketsFull(u64),
    /// No memory was found for the piece or for the packet.
    #[error("out of memory")]
    Memory,
}

/// The bytes of a packet that was put together, at most 4,096. Contracts see the list of them.
#[derive(Drop)]
pub struct Plain {
    bytes: Vec<u8>,
}

impl Model for Plain {
    ghost use Rattle.std.specs.Prelude.{◌≤◌, ℕ, List, length};

    ghost Value = { List ℕ };

    ghost view = { λ p. p.bytes.items };

    ghost invariant = { λ p. length p.bytes.items ≤ 4096 };
}

impl Plain {
    /// The packet of bytes that are there. It takes no memory.
    pub(crate) fn new(bytes: Vec<u8>) -> Plain
        requires { length bytes.items ≤ 4096 }
        ensures { result ≡ bytes.items }
    {
        Plain { bytes }
    }

    /// The bytes, in their order.
    pub fn as_slice(&self) -> &[u8]
        ensures { result.now ≡ self.now }
    {
        self.bytes.as_slice()
    }
}

/// What a piece that wasn't refused was (own).
#[derive(Drop)]
pub enum Gathered {
    /// This number was held before, with these bytes and this mark.
    Again,
    /// It is held now, and its packet isn't whole.
    Kept,
    /// With it all pieces from 0 to a last one were there. This is the packet, which is forgotten.
    Whole(Plain),
}
