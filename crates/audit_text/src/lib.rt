//! The lines of the text of logs, as one grammar that the reader and the writer meet in both
//! directions. What lines say are values of their own, which know no end and no state.
#![tactic(auto)]

mod calls;
mod contexts;
pub mod edges;
mod entries;
mod fields;
pub mod laws;
mod line;
pub mod pushing;
mod reading;
mod texts;
mod writing;

pub use line::{LogCall, LogEntry, LogEvent, LogHead, LogLine};
pub use reading::{LogLineRefusal, read_log_line};
pub use writing::write_log_line;
