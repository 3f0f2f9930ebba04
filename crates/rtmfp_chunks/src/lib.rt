//! The chunks of RFC 7016 section 2.3, those of flows aside, read in place and written exactly.
#![tactic(auto)]

mod address_list;
mod fields;
pub mod kinds;
mod reading;
mod rows;
mod view;
mod writing;

pub use address_list::Addresses;
pub use reading::{ChunkFault, read_chunk};
pub use view::ChunkView;
pub use writing::write_chunk;
