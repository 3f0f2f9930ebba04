//! Rows of what entries of ends tell of flows, each value beside the edge. The functions do
//! nothing.

ghost use Rattle.endpoint_handing.specs.Edges.{HasItsContext, OpensFlows, TellsOfFlows};

/// The context in which an end sends under a session ID is that of the last session that began
/// under it.
pub fn a_session_id_has_its_context()
    ensures { HasItsContext }
{}

/// Messages are queued and abandoned in flows away from an end, and handed over from those towards
/// it.
pub fn entries_tell_of_flows()
    ensures { TellsOfFlows }
{}

/// Which call opens which flow, and in which order its messages are handed over then.
pub fn calls_open_flows()
    ensures { OpensFlows }
{}
