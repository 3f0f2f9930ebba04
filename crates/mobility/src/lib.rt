//! How the other end of a session moves to another address: it is pinged there, and the session's
//! address changes with the reply alone (RFC 7016 section 3.5.4.2; the limit of a second and the
//! replacement of tests are own).
//!
//! No call takes memory.
#![tactic(auto)]

pub mod edges;
pub mod laws;
mod moves;
mod pending;

pub use moves::Moves;
