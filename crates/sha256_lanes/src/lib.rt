//! SHA-256's compression of four blocks at once (FIPS 180-4, 6.2.2), each in a lane of its own.
#![tactic(auto)]

mod consts;
pub mod edges;
mod lanes;
mod words;

pub use lanes::compress;
pub use words::{bytes_of, initial, load_be, splat, value_of, words_of_two};
