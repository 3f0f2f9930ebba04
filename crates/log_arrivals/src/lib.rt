//! In which context the datagram of an event opens at its end, as a checker of logs finds it, and
//! whether it was sent in it.
#![tactic(auto)]

mod arrival;
mod arrived;
mod calls;
mod contexts;
pub mod edges;
mod given;
mod honest;
pub mod laws;

pub use arrival::Arrival;
pub use arrived::{Arrived, arrive};
pub use calls::{arrive_call, in_session_call, is_honest_call};
pub use given::{Given, in_session};
pub use honest::is_honest;
