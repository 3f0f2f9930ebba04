//! How far the walk over a datagram's chunks came.

use rtmfp_data_chunks::DataCursor;

/// What the chunks of a datagram so far were, as far as those after them ask.
#[derive(Drop)]
pub struct Walk {
    /// Whether an initiator's keying was among them.
    pub keyed: bool,
    /// Whether they stand in a packet that was gathered from its pieces.
    pub gathered: bool,
    /// The reader of chunks of flows, which knows what a next chunk would stand behind here.
    pub cursor: DataCursor,
}
