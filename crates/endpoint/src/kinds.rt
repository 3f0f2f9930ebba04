//! The types of the chunks of a packet.

ghost use Rattle.std.specs.Prelude.{◌≡◌, Result};
ghost use Rattle.rtmfp_packet.specs.declared.head.PacketFault.{PacketFault as PacketFaultType};
ghost use Rattle.rtmfp_packet.specs.Reading.{PacketReading};
ghost use Rattle.rtmfp_packet.specs.Whole.{Whole};
ghost use Rattle.endpoint.specs.Kinds.{kinds_in, kinds_left, kinds_read};
ghost use Rattle.std.specs.Iterator.{YieldsFirst, item_count};

use rtmfp_packet::{Chunks, read_packet};

/// The types of the chunks of a packet, in their order.
#[derive(Clone, Copy)]
pub struct Kinds<'a> {
    /// The chunks that are left; none of bytes that are no packet.
    chunks: Option<Chunks<'a>>,
}

/// The types of the chunks of a plain packet (RFC 7016 section 2.2.4), but for those that are
/// passed over (0x00 and 0xff); none of bytes that are no packet. Nothing is copied.
pub fn outgoing_kinds(plain: &[u8]) -> Kinds<'_>
    ensures value { kinds_left result ≡ kinds_in plain.now }

    // However the bytes read, these are the types of what was read.
    ensures reads { (read : Result Whole PacketFaultType) → PacketReading plain.now read →
        kinds_left result ≡ kinds_read read }
{
    match read_packet(plain) {
        Ok(packet) => Kinds {
            chunks: Some(packet.chunks()),
        },
        Err(_) => Kinds { chunks: None },
    }
}

impl<'a> Iterator for Kinds<'a> {
    type Item = u8;

    ghost use Rattle.std.specs.Iterator.{YieldsFirst, item_count};
    ghost use Rattle.endpoint.specs.Kinds.{kinds_left};

    ghost next_gives = { YieldsFirst kinds_left };

    ghost remaining = { item_count kinds_left };

    fn next(&mut self) -> Option<u8> {
        match &mut self.chunks {
            Some(chunks) => match chunks.next() {
                Some(chunk) => Some(chunk.kind),
                None => None,
            },
            None => None,
        }
    }
}
