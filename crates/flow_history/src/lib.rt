//! The law of flows between many ends: whatever they do, each flow hands over what was queued on
//! it. It speaks of deeds, which an end does to its flows, and knows nothing of how an end keeps
//! them.
#![tactic(auto)]

pub mod edges;
pub mod laws;
