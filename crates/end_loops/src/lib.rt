//! The two loops of an end: the chunks of a datagram are gone through, one after another, and what
//! time makes due is done, one thing after another; both stop where no memory is found.
#![tactic(auto)]

mod admission;
mod session_ticking;
mod testing;
mod ticking;
mod walking;

pub use admission::{open_datagram, packet_at};
pub use ticking::do_due;
pub use walking::{NOT_TAKEN, enter, go_through, refuse, refuse_unopened};
