//! What programs in C see of an end (rtmfp.h): its structs, and the numbers of what calls answer.
#![tactic(auto)]

mod address;
mod addresses;
mod causes;
mod entries;
mod numbers;
mod shapes;

pub use addresses::{addresses_of, are_addresses, is_address};
pub use entries::{bytes_of, entry_of};
pub use numbers::{
    ADDRESS, CERTIFICATE, CONFIG, EMPTY, FULL, INDEX, MEMORY, NAME, OK, SIZE, TOO_LONG, give,
    give_near, number_of, told_number, took_number,
};
pub use shapes::{
    CAddress, CConfig, CDraws, CEntry, address_of, draws_of, is_config, is_limit, no_draws,
    options_of,
};
