//! Small sets of the sending flows of a session, as bits: the turns of those that may send, and the
//! IDs of those that have something to do.
//!
//! It knows no flow: what turns and IDs mean says who keeps the sets.
#![tactic(auto)]

mod busy;
mod turns;

pub use busy::Busy;
pub use turns::Turns;
