//! Decides the lines of the table of lawful logs that hang on no datagram. It goes by the call and
//! by what is kept of the log: what a fact asks of the facts before it, the ends of attempts and
//! sessions, searches, and generations of the group's secret.
#![tactic(auto)]

mod calls;
pub mod edges;
mod ends;
mod facts;
pub mod laws;
mod moments;
mod searches;
mod successions;
mod things;

pub use ends::{
    cancelled, closed_by_end, closed_by_time, ended, expired, idle, makes_way, unconfirmed,
};
pub use facts::{is_free, stands, started};
pub use searches::{sought, unsought};
pub use successions::{advanced, learnt};
