//! Opening sessions: the attempts of an end, the hellos that it answers, and the keyings that bear
//! and open sessions.
#![tactic(auto)]

mod aim;
mod answer;
mod answering;
mod attempt;
mod attempts;
mod candidates;
mod choosing;
mod due;
pub mod edges;
pub mod generation_edges;
mod index;
mod indexed;
mod judging;
mod kept;
mod keying;
mod leaving;
mod looking;
mod marks;
mod print;
mod redirecting;
mod refusing;
mod rows;
pub mod search_edges;
mod searching;
mod sending;
mod startup;
mod table;
mod words;

pub use aim::Aim;
pub use answer::{Answer, Due, KeyRefusal, Keyed, Spread};
pub use choosing::wide;
pub use deadlines::Deadlines;
pub use judging::Hearing;
pub use leaving::{Found, Greeting};
pub use redirecting::{Extension, redirect_answer};
pub use rtmfp_base::Cause;
pub use startup::Startup;
