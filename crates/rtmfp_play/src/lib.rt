//! What `replay` does: the lines of a script, one by one, with reports or with the logs of the ends,
//! and runs that are generated.
#![tactic(auto)]

mod generated;
mod journal;
mod journaling;
pub mod laws;
mod moments;
mod play;
mod playing;
mod said;

pub use generated::generate;
pub use journaling::{Journaling, journal_line};
pub use playing::{Playing, play_line};
pub use said::Said;
