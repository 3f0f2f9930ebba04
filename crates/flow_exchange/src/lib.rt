//! The law of one sending flow and one receiving flow that exchange their chunks and acks, and what
//! holds of every receiver.
#![tactic(auto)]

pub mod laws;
pub mod receivers;
