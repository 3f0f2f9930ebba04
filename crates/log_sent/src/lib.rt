//! What a checker of logs keeps of all ends together. It is which datagrams went out so far, each in
//! the context that it was sealed for, and what stands in logs once, nonces and fingerprints.
#![tactic(auto)]

pub mod edges;
pub mod laws;
mod piece;
mod pieces;
mod places;
mod prints;
mod sent;
mod stated;

pub use places::event_at;
pub use prints::Prints;
pub use sent::Sent;
pub use stated::{add_nonce, nonce_in, states_new};
