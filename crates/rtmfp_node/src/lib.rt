//! What a node does, turn by turn: it draws, waits for a datagram, has its end take it, writes what
//! the end did, and sends what goes out.
#![tactic(auto)]

mod acting;
mod calls;
mod draw;
pub mod edges;
pub mod laws;
mod messages;
mod notes;
mod sending;
mod served;
mod serving;
mod turn;
mod turn_zero;

pub use served::Served;
pub use serving::serve;
