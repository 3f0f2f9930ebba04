//! The audit of the text of logs that a source has, and what is written of it.
#![tactic(auto)]

mod audit_run;
pub mod edges;
mod reading;
mod telling;

pub use audit_run::run_audit;
