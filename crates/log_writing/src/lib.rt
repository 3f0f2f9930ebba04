//! What is written of ends: the lines of their logs' text that tell what they were given first,
//! what was called of them, and what they did.
#![tactic(auto)]

pub mod edges;
pub mod laws;
mod said;
mod writing;

pub use said::SaidCall;
pub use writing::{push_event, push_head};
