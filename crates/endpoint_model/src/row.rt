//! What an end keeps of a session.

use mobility::Moves;
use rtmfp_fragments::Reassembly;
use session_core::Session;
use session_flows::Flows;

/// A session as an end keeps it: what the end itself has to keep of it stands here, beside the
/// session.
#[derive(Drop)]
pub struct Row {
    /// The session.
    pub session: Session,
    /// The test of another address of the peer.
    pub moves: Moves,
    /// Its flows.
    pub flows: Flows,
    /// The packets of which pieces came.
    pub gathering: Reassembly,
    /// How many packets of it were sent in pieces; the last one had this ID.
    pub packets: u64,
}
