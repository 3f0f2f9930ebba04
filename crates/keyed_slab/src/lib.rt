//! Things in the slots of a slab, each under a key that names it and never another thing.
//!
//! Only what is called `reserve` takes memory.
#![tactic(auto)]

pub mod edges;
mod keyed_slab;
mod keys;
pub mod laws;
mod slot_set;

pub use keyed_slab::KeyedSlab;
pub use keys::{Key, Keys};
pub use slot_set::SlotSet;
