//! Deadlines of things that stand in slots: two binary heaps in which an entry can move and go, of
//! what is due later and of what came due.
//!
//! Only `Deadlines::reserve` takes memory.
#![tactic(auto)]

mod deadlines;
pub mod edges;
mod edits;
mod entry;
mod halves;
mod heap;
mod order;
mod places;
mod search;

pub use deadlines::Deadlines;
