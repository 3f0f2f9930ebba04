//! One session between two ends: its contexts, packets sealed and heard, the stamps of its packets,
//! its stages and times, and its window (after RFC 7016 section 3.5).
//!
//! No call takes memory.
#![tactic(auto)]

mod congestion;
pub mod edges;
mod hearing;
pub mod laws;
mod sealing;
mod session;
mod stage;
mod stamps;
mod trips;

pub use hearing::Unheard;
pub use session::Session;
pub use stage::{Role, SessionDue, Stage};
