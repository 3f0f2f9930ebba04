//! What tests, and programs that play rows, have in common: rows that stand for many lines, two ends
//! by hand, a long message that goes from one to the other, and an end as a library, as README has it.
#![tactic(auto)]

pub mod by_hand;
mod carrying;
pub mod library;
pub mod rows;
pub mod tables;
