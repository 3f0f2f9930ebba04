//! Decides the line of the birth of a session. It asks whether the datagram of the event makes the
//! offer, and whether what the end did lets a session be born of it.
#![tactic(auto)]

mod births;
pub mod edges;
pub mod laws;
mod offers;
mod party;
mod rooms;
mod ways;

pub use births::born;
pub use offers::offered;
pub use party::{Party, Way};
pub use ways::way_of;
