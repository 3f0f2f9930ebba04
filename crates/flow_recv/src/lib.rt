//! The receiver of a flow (RFC 7016 section 3.6.3): it puts fragments together and hands messages
//! over.
#![tactic(auto)]

mod above;
mod acking;
mod bytes;
pub mod edges;
mod filled;
mod held;
mod newest;
mod outcome;
mod receiver;
mod run;
mod runs;
mod spans;
mod summed;
mod sums;

pub use outcome::{FlowRefusal, Took};
pub use receiver::FlowReceiver;
