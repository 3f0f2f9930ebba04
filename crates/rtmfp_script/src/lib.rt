//! The lines of a script of steps, as one grammar that the reader meets in both directions.
#![tactic(auto)]

mod address;
mod bytes;
mod content;
mod fields;
mod flows;
mod line;
mod placing;
mod reading;
mod seeking;
mod values;

pub use content::Content;
pub use fields::read_number;
pub use line::{AimLine, BringLine, CallLine, Candidates, Said, ScriptLine};
pub use reading::read_line;
pub use values::{
    read_address, read_digits, read_service, read_sixteen, read_thirty_two, split_word,
};
