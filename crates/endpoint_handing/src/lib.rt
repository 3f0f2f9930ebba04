//! What the flows of ends hand over, between any number of ends: the law of many flows over what
//! ends do.
#![tactic(auto)]

pub mod edges;
pub mod laws;
