//! Addresses and options of RFC 7016 section 2.1, read and written exactly, and a packer of plain
//! packets.
#![tactic(auto)]

mod address;
mod fault;
mod option_writing;
mod options;
mod outgoing;

pub use address::{Address, read_address, write_address};
pub use fault::FormFault;
pub use option_writing::{append_options, options_len, write_options};
pub use options::{OptionView, Options, read_options};
pub use outgoing::{NoRoom, Outgoing};
