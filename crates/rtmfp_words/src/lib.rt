//! The words of the command line, as one grammar that the reader meets in both directions.
#![tactic(auto)]

mod command;
mod command_line;
mod fault;
mod meet_words;
mod opening_words;
mod option;
mod scan;
mod serve_words;
mod values;
mod words;

pub use command::{Command, read_command};
pub use command_line::{CommandLine, read_command_line};
pub use fault::WordsFault;
pub use meet_words::{MeetWords, read_meet_words};
pub use opening_words::{OpeningWords, Whom};
pub use serve_words::{ServeWords, read_serve_words};
