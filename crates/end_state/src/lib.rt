//! What an end keeps, and the single steps that bring it from state to state: reads, datagrams that
//! go out, ends that are told.
#![tactic(auto)]

mod acks;
mod contexts;
mod end_state;
mod groups;
mod introducing;
mod memory;
mod outbox;
mod packets;
mod sealing;
mod sending;
mod session_ids;
mod session_sending;
mod session_steps;
mod settings;
mod succeeding;
mod taking;

pub use contexts::{PLAIN_AT, session_id};
pub use end_state::EndState;
pub use groups::Groups;
pub use introducing::RowAddresses;
pub use memory::Blanks;
pub use outbox::{Outbox, fact_entry};
pub use packets::{fault_number, has_mode};
pub use sealing::blank;
pub use sending::blanks;
pub use settings::Settings;
