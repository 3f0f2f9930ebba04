//! A world whose ends stand at places, some of them behind translators of addresses (own). What
//! arrives of a carried datagram is a step of the world like any other, so all that holds of worlds
//! holds here.
#![tactic(auto)]

mod step;
mod world;

pub use step::{LostLine, PlacedStep};
pub use world::PlacedWorld;
