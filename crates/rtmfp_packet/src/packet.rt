//! A plain packet, read in place.
ghost use Rattle.std.specs.Prelude.{◌≡◌, Result};
ghost use Rattle.rtmfp_packet.specs.Whole.{Whole};
ghost use Rattle.rtmfp_packet.specs.Reading.{PacketReading};

use crate::chunks::Chunks;
use crate::head::{PacketFault, PacketHead, read_head};
use std::marker::Model;

/// A plain packet of RFC 7016 section 2.2.4: a head, chunks and padding. It is a view of the bytes
/// that it was read from.
#[derive(Drop)]
pub struct Packet<'a> {
    head: PacketHead,
    start: usize,
    body: &'a [u8],
}

impl<'a> Model for Packet<'a> {
    ghost use Rattle.std.specs.Prelude.{◌+◌, ◌^◌, ◌<◌, length};
    ghost use Rattle.rtmfp_packet.specs.Walk.{body_of};
    ghost use Rattle.rtmfp_packet.specs.Whole.{Whole};

    ghost Value = { Whole };

    ghost view = { λ p. record {
      head = p.head;
      start = p.start;
      chunks = (body_of p.body.now).chunks;
      padding = (body_of p.body.now).padding;
    } };

    ghost invariant = { λ p. p.start + length p.body.now < 2 ^ 64 };
}

impl<'a> Packet<'a> {
    ghost use Rattle.std.specs.Prelude.{◌≡◌, length};
    ghost use Rattle.rtmfp_packet.specs.Walk.{all_placed_from, visible};
    ghost use Rattle.rtmfp_packet.specs.Chunks.{left};

    /// The head.
    pub fn head(&self) -> &PacketHead
        ensures { result.now ≡ self.now.head }
    {
        &self.head
    }

    /// The chunks in order, but for those of types 0x00 and 0xff.
    pub fn chunks(&self) -> Chunks<'a>
        ensures { left result ≡ visible (all_placed_from self.now.start self.now.chunks) }
    {
        Chunks::new(self.start, self.body)
    }

    /// How many bytes of padding follow the last chunk.
    pub fn padding(&self) -> usize
        ensures { result ≡ length self.now.padding }
    {
        let mut chunks = Chunks::new(self.start, self.body);
        while let Some(_) = chunks.next_raw() {}
        chunks.rest_len()
    }
}

/// Reads a plain packet. The slices of what it gives are parts of `bytes`; nothing is copied.
pub fn read_packet(bytes: &[u8]) -> Result<Packet<'_>, PacketFault>
    // The bytes read so, and in no other way.
    ensures reads { PacketReading bytes.now result }
    ensures only { (other : Result Whole PacketFault) → PacketReading bytes.now other →
        other ≡ result }
{
    read_whole(bytes)
}

fn read_whole(bytes: &[u8]) -> Result<Packet<'_>, PacketFault>
    ensures { PacketReading bytes.now result }
{
    let [flags, rest @ ..] = bytes else {
        return Err(PacketFault::Empty);
    };
    let (head, body) = read_head(*flags, rest)?;
    let start = bytes.len() - body.len();
    Ok(Packet { head, start, body })
}
