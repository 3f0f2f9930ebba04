//! The laws of what a session does with its flows: each thing is a list of deeds of its flows, as
//! histories of flows know them. They stand over what `session_flows` and `flow_history` define,
//! and know nothing of the code.
#![tactic(auto)]

pub mod edges;
pub mod laws;
