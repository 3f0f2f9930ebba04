//! The texts of packets, as `show` prints them.
#![tactic(auto)]

mod digits;
pub mod laws;
mod show;
mod show_chunk;
mod show_data;

pub use show::{LIMIT, show_line};
