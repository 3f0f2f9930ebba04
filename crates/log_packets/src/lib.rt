//! Datagrams that are opened by secrets of a group, and what their chunks say, as the table of
//! lawful logs asks it.
#![tactic(auto)]

mod asked;
mod contexts;
pub mod edges;
mod fields;
pub mod laws;
mod opener;
mod secrets;

pub use asked::{
    answers, first_initiator, has_close, has_close_ack, hello_from, hello_of, keyings,
};
pub use contexts::{generation_of, sid_of};
pub use fields::{InitiatorKeying, ResponderKeying, initiator_keying, responder_keying};
pub use opener::Opener;
pub use secrets::SecretMap;
