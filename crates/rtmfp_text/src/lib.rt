//! Text that is being made: words, numbers, bytes in hexadecimal, addresses, and the names of
//! chunks and ends.
#![tactic(auto)]

mod address_text;
mod directory;
mod kinds;
mod names;
mod text;

pub use address_text::push_address;
pub use directory::Directory;
pub use kinds::kind_name;
pub use names::{Name, Named};
pub use text::{Text, bit_digit};
