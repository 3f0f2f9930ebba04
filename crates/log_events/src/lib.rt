//! What stays so while the entries of one event of a log are judged, one after another. What was
//! done before the event tells of its datagram and of what stands under session IDs; and there is
//! all that a checker keeps of one end.
#![tactic(auto)]

pub mod edges;
pub mod laws;
mod watch;

pub use watch::EndWatch;
