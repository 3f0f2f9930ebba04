//! Judges one event of a log: whether what its call learns counts, its datagram is honest, and its
//! entries pass.
#![tactic(auto)]

mod begun;
mod entries;
mod events;
mod learning;

pub use events::{Openers, judge_event};
