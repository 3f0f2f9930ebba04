//! Decides the line of a datagram that goes out, by what is kept of its end. It asks whether it was
//! sealed so, its number is a new one, the session that it goes in stands, and its keyings are those
//! of attempts and sessions of that end.
#![tactic(auto)]

mod attempts;
mod births;
mod carried;
pub mod edges;
mod keyings;
pub mod laws;
mod numbers;
mod outs;
mod sender;
mod sessions;

pub use carried::keyings_out;
pub use outs::out_line;
pub use sender::{Cause, Sender};
