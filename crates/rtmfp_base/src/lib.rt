//! Small types that the other crates share.
#![tactic(auto)]

mod cause;
pub mod limits;
mod memory;
mod message;

pub use cause::Cause;
pub use memory::Memory;
pub use message::Message;
