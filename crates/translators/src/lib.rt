//! A translator of addresses (own): hosts behind it have one public host, and a port of it for each
//! mapping.
#![tactic(auto)]

pub mod edges;
pub mod laws;
mod mapping;
mod mappings;
mod news;
mod places;
mod refusal;
mod rule;
mod translator;

pub use news::News;
pub use refusal::{InRefusal, OutRefusal};
pub use rule::Rule;
pub use translator::Translator;
