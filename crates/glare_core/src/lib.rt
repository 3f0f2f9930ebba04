//! What an end holds with its peers, the facts that it states of it, and the laws that hold over
//! the facts of every history.
#![tactic(auto)]

mod answers;
mod checks;
pub mod edges;
mod facts;
mod given;
pub mod laws;
mod peers;
mod print;
mod rows;

pub use answers::{HearRefusal, Heard, Judged, Keying, StartRefusal, Way};
pub use facts::{Fact, Held, Joined, Why};
pub use given::{held_after, number_in, peer_of};
pub use peers::Peers;
