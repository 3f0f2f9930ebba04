//! What a checker of logs keeps of the log of one end, entry by entry: what stands under each
//! session ID and with each peer, what was counted and drawn, which numbers were used, and which
//! generations of the group's secret are known.
#![tactic(auto)]

mod digest;
pub mod edges;
mod generations;
mod hearing;
pub mod laws;
mod nonces;
mod numbers;
mod spot;
mod spots;

pub use digest::Digest;
pub use generations::Generations;
pub use hearing::Hearing;
pub use nonces::Nonces;
pub use numbers::Numbers;
pub use spot::{Drawn, Spot};
