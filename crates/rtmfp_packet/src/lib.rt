//! Plain packets of RFC 7016 section 2.2.4: the head, the walk over the chunks, and the padding.
#![tactic(auto)]

mod chunks;
mod head;
mod packet;
mod writing;

pub use chunks::{Chunks, RawChunk};
pub use head::{Mode, PacketFault, PacketHead};
pub use packet::{Packet, read_packet};
pub use writing::begin_packet;
