//! What one session does with its flows (RFC 7016 section 3.6): which flows it has, what its calls
//! on them do, what a chunk of a flow does or why it is discarded, which acks are owed, what a tick
//! makes lost and abandons, and which chunks go into a packet.
//!
//! It knows no startup, no other session and no sealing. Of its own session it asks for the stage,
//! the resend time and the window. Contracts say what is stated (`Stated` in `specs/Keeping.antt`),
//! and the end that keeps the session makes entries of it.
#![tactic(auto)]

mod acks;
mod bound;
mod chunks;
pub mod edges;
mod flows;
mod handing;
mod judged;
mod judging;
mod kept;
pub mod laws;
mod pace;
mod packing;
mod refusal;
mod taking;
mod timing;
mod told;

pub use flows::Flows;
pub use judged::JudgedData;
pub use pace::Pace;
pub use refusal::CallRefusal;
