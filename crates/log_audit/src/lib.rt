//! The audit of logs, whole. It says whether the history that logs tell in an order is lawful,
//! honest and fresh, or which check is the first that fails.
#![tactic(auto)]

mod auditing;
mod calls;
mod ends;
mod places;
mod secrets;

pub use auditing::audit;
