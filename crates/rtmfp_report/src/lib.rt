//! The lines that tell what ends did, and which calls they refused.
#![tactic(auto)]

mod causes;
mod entries;
mod facts;
mod group_keys;
mod group_secrets;
mod lines;
mod lone_chunk;
mod lost;
mod nonces;
mod refusals;
mod sent;
mod tally;

pub use entries::push_entries;
pub use group_keys::GroupKeys;
pub use group_secrets::GroupSecrets;
pub use lost::push_lost;
pub use refusals::{push_call_refusal, push_open_refusal, push_row_refusal, push_seek_refusal};
pub use tally::{Tally, push_summary};
