//! Packets that are cut into pieces and put together, with ample memory.

use rtmfp_fragments::{Gathered, PieceRefusal, Reassembly, split};
use std::alloc::Global;

/// Whether a packet goes over whole in pieces of a size, each of which is taken again after it was.
fn goes_over(alloc: Global, packet: &[u8], size: usize) -> bool {
    let Ok(pieces) = split(packet, size) else {
        return false;
    };
    let mut to = Reassembly::new(alloc);
    let mut given = false;
    for x in pieces {
        given = match to.take(7, x.number, x.more, x.bytes, 0) {
            Ok(Gathered::Whole(plain)) => plain.as_slice() == packet,
            Ok(Gathered::Kept) => matches!(
                to.take(7, x.number, x.more, x.bytes, 4999),
                Ok(Gathered::Again)
            ),
            _ => false,
        };
        if !given {
            return false;
        }
    }
    given
}

/// Whether four packets are held, and a fifth is refused until they are forgotten.
fn holds_four(alloc: Global) -> bool {
    let mut to = Reassembly::new(alloc);
    for id in 0..4 {
        if !matches!(to.take(id, 1, true, &[1; 2048], id), Ok(Gathered::Kept)) {
            return false;
        }
    }
    matches!(
        to.take(4, 0, true, &[1], 4999),
        Err(PieceRefusal::PacketsFull(4))
    ) && matches!(to.take(4, 0, true, &[1], 5000), Ok(Gathered::Kept))
        && matches!(to.take(0, 0, false, &[], 5001), Ok(Gathered::Whole(_)))
}

#[test]
fn pieces_are_put_together(rt: HostRuntime) {
    assert!(rt; goes_over(rt.alloc(), &[0x61; 4096], 64));
    assert!(rt; goes_over(rt.alloc(), &[0x61; 1000], 999));
    assert!(rt; goes_over(rt.alloc(), &[], 1));
}

#[test]
fn four_packets_are_held(rt: HostRuntime) {
    assert!(rt; holds_four(rt.alloc()));
}
