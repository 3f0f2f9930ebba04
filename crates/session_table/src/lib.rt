//! The sessions of an end: a row for each under its session ID, what changes in one row, and what
//! is due of them. It knows no attempts, no entries and no other end.
#![tactic(auto)]

mod acks;
mod calls;
mod changes;
mod chunks;
mod due;
mod flow_times;
mod kept;
mod round;
mod row_facts;
mod sealing;
mod slot;
mod table;

pub use sealing::{Packed, Sealed};
pub use table::SessionTable;
