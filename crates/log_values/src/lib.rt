//! Logs of ends, as a checker is given them, and the history that they tell in one order of their
//! events.
#![tactic(auto)]

pub mod edges;
pub mod laws;
mod log;

pub use log::{EndLog, Logged, LoggedCall};
