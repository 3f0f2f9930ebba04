//! Where ends stand: at places of their own, or behind translators of addresses (own). What an end
//! sends goes out through its translator, and comes in through that of the address it goes to.
#![tactic(auto)]

mod carried;
pub mod edges;
mod inward;
mod matching;
mod outward;
mod places;
mod standing;

pub use carried::{Carried, Lost, PlacesRefusal};
pub use places::Places;
pub use standing::{NamedTranslator, Standing};
