//! The top call of `rtmfp`: what is done with each line of a source, and how a run over them ends.
#![tactic(auto)]

mod doing;
pub mod laws;
mod script_run;
mod standard;
mod top_call;

pub use rtmfp_lines::Status;
pub use standard::run_program;
pub use top_call::run;
