//! Logs of ends that are gathered from the lines of their text. There are the logs, the order of
//! their events, and on which line each log, event and entry stands.
#![tactic(auto)]

pub mod edges;
mod gathered;
mod turning;

pub use gathered::{Gathered, LineFault};
