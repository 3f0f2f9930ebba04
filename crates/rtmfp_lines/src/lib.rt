//! The lines of a source: they are read in whatever pieces it gives, and a run over them ends with
//! a status.
#![tactic(auto)]

mod buffer;
pub mod laws;
mod lines;
mod status;

pub use buffer::Buffer;
pub use lines::{Next, first_line, next_line};
pub use status::Status;
