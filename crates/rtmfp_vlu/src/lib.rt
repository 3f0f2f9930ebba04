//! Variable-length unsigned integers (VLUs) of RFC 7016 section 2.1.2, read and written exactly.
#![tactic(auto)]

mod reading;
mod writing;

pub use reading::{VluFault, read_vlu};
pub use writing::{vlu_len, write_vlu};
