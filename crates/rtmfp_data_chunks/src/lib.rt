//! The chunks of flows (RFC 7016 sections 2.3.11 to 2.3.16), read in place and written, and what
//! numbers, fragments and runs of a flow are.
#![tactic(auto)]

mod acked;
mod cursor;
mod fields;
mod flow_options;
pub mod kinds;
mod reading;
mod user_data;
mod view;
mod writing;

pub use acked::AckedSpans;
pub use cursor::DataCursor;
pub use flow_options::{all_known, flow_named, metadata_in, spell_flow_options};
pub use user_data::{Numbers, Part, UserData};
pub use view::{DataFault, DataView};
pub use writing::write_data;
