//! What an audit of logs asks, and which of its checks is the first that fails. The history that
//! they tell in one order of their events has to be lawful, honest and fresh under one map of
//! secrets (own).
#![tactic(auto)]

pub mod edges;
pub mod laws;
mod verdict;

pub use verdict::{AuditFault, Finding, Verdict};
