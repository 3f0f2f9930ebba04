//! The sender of a flow.
#![tactic(auto)]

mod acking;
mod backlog;
pub mod edges;
mod finder;
mod fragments;
pub mod laws;
mod loss;
mod lows;
mod marks;
mod messages;
mod ordered;
mod outcome;
mod passed;
mod pick;
mod row;
mod rows;
mod sender;
mod slots;
mod state;
mod totals;
mod waiting;

pub use outcome::{AckFault, Acked, NoChunk, NotQueued, QueueRefusal};
pub use pick::Pick;
pub use sender::FlowSender;
pub use waiting::MessageOptions;
