//! One end of the protocol: its calls bring it from state to state, and add entries to an outbox.
#![tactic(auto)]

mod attempts;
mod call;
mod calling;
mod closing;
mod contexts;
mod endpoint;
mod flow_calls;
mod holding;
mod introducing;
mod kinds;
pub mod laws;
mod narrowing;
mod receiving;
mod searches;
pub mod sizes;
mod succeeding;
mod ticking;

pub use call::{Answered, EndCall};
pub use end_state::Outbox;
pub use endpoint::Endpoint;
pub use endpoint_model::{CallRefusal, Config, Draws, Entry, OpenRefusal, SeekRefusal, Stopped};
pub use flow_send::{MessageOptions, QueueRefusal};
pub use introducer::RowRefusal;
pub use kinds::{Kinds, outgoing_kinds};
