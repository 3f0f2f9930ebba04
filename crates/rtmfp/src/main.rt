//! The program `rtmfp`: it does what its words say. The files `stdin` and `stdout` are rows of
//! `show`, a packet a line, and what the protocol's text makes of it.
#![tactic(auto)]

use rtmfp_cli::run_program;
use std::process::ExitCode;

fn main(rt: HostRuntime) -> ExitCode {
    run_program(&rt)
}
