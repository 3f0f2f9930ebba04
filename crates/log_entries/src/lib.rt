//! Judges the entries of one event of a log, one after another: whether each meets its line of the
//! table of lawful logs, and states no nonce that was stated before.
#![tactic(auto)]

mod entries;
mod facts;
mod lines;
mod scene;

pub use entries::judge_entry;
pub use lines::{add_entry, entry_line};
pub use scene::Scene;
