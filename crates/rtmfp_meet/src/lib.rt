//! What `meet` does: three nodes are started as children and waited for, and what they wrote is
//! written again, each line with the letter of its node.
#![tactic(auto)]

mod child_words;
mod lines;
mod meeting;
mod node;
mod steps;

pub use meeting::meet;
pub use node::Node;
