//! What a checker of logs keeps of the facts of one end: what is held with each peer and what was
//! seen of it, and how many attempts were started.
#![tactic(auto)]

pub mod edges;
mod roll;

pub use roll::Roll;
