//! Decides the lines of facts that hang on the datagram of their event: what it says, by where it
//! opens and as which packet it reads.
#![tactic(auto)]

mod answers;
mod coming;
pub mod edges;
mod lines;
mod sessions;

pub use answers::{opened, started_by_hello};
pub use lines::{closed, ended, fact_line, started};
pub use sessions::{closed_by_answer, confirmed, far};
