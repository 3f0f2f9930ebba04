//! What a checker of logs keeps of the session IDs of one end, beside what stands under each. It is
//! the tag of what began there last, the generation of the group's secret in which its keying went
//! out, and of a session the generation in which it began and what it took since then.
#![tactic(auto)]

mod alone;
mod begun;
mod contexts;
pub mod edges;
pub mod laws;
mod lowest;
mod sessions;
mod taking;
mod threads;

pub use contexts::Contexts;
pub use taking::Taking;
