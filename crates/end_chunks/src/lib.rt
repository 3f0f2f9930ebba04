//! What one chunk of a datagram does at an end: it is read once, and discarded for its cause or
//! applied.
#![tactic(auto)]

mod chunks;
mod closing;
mod flows;
mod introducing;
mod judging;
mod keyings;
mod moving;
mod pieces;

pub use chunks::take_chunk;
