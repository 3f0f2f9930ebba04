//! Whom an introducer forwards a hello to, and with which addresses it answers one (RFC 7016
//! sections 3.5.1.4 and 3.5.1.5; rows, their limits and the choice of a session are own; an
//! endpoint uses the rows alone).
//!
//! An endpoint calls `Directory::add_row` and `redirect`, and finds the sessions that it keeps in
//! its own ledger; `keep`, `gone` and `forward` serve programs that introduce without being an
//! endpoint.
#![tactic(auto)]

mod directory;
pub mod edges;
mod ids;
mod kept_sessions;
pub mod laws;
mod refusal;
mod rows;

pub use directory::Directory;
pub use refusal::RowRefusal;
