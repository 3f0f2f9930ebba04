//! What an end is made of, as contracts see it: the values that its calls are given, what they
//! answer and add, and, in `specs/`, what it keeps and what each call does, item by item.
#![tactic(auto)]

mod answers;
mod config;
pub mod edges;
mod entry;
mod kinds;
mod place;
mod row;
mod row_due;
mod walk;

pub use answers::{OpenRefusal, SeekRefusal, Stopped};
pub use config::{Config, Draws};
pub use entry::Entry;
pub use kinds::{Kind, KindRow, Takers, Way, kind_of};
pub use place::Place;
pub use row::Row;
pub use row_due::RowDue;
pub use session_flows::CallRefusal;
pub use walk::Walk;
