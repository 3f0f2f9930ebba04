//! The text of the logs of a world: what its ends were given first, and the events of its journal.
#![tactic(auto)]

mod heads;
pub mod laws;
mod lines;

pub use heads::push_heads;
pub use lines::push_line;
