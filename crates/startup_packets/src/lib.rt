//! The plain packets of session startup, and keyings read from their payloads: what stands in them,
//! and how they are signed.
#![tactic(auto)]

pub mod edges;
pub mod laws;
mod packets;
mod parts;
mod reading;

pub use packets::{
    cookiechange_packet, ihello_packet, iikeying_packet, redirect_packet, rhello_packet,
    rikeying_packet, rikeying_signature,
};
pub use parts::{InitiatorPart, ResponderPart, is_signed};
pub use reading::{
    InitiatorFields, ResponderFields, fault_cause, read_initiator_keying, read_responder_keying,
};
