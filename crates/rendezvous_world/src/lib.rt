//! Many ends in one run: each step of a script calls one of them, and the journal keeps what it
//! did. What no end can do to another is refused: a datagram that opens and was never sent is
//! forged.
#![tactic(auto)]

mod beginning;
mod bringing;
mod calls;
mod draws;
pub mod edges;
mod end;
mod entering;
mod forgery;
mod journal;
mod kept;
mod keyed;
pub mod laws;
mod pairs;
mod sent;
mod step;
mod taking;
mod world;

pub use beginning::Beginning;
pub use endpoint::MessageOptions;
pub use journal::{Journal, JournalLine, Refused};
pub use step::{Addresses, Step, StepFault};
pub use world::World;
