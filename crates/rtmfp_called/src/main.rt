//! Calls the program `rtmfp` once for each row of a table, and prints what came of it: the row's
//! title, the exit status, and what was written on standard output and on standard error. With the
//! one word `rows` it does this, by calls of itself; with any other words it is `rtmfp`. The file
//! `stdin` is the script of one of the rows, and its report in `stdout` the rows of `replay`, a
//! scenario after a comment; they were held to the rules by hand.
#![tactic(auto)]

mod calls;
mod rows;

use crate::calls::tell_rows;
use rtmfp_cli::run_program;
use std::env;
use std::process::ExitCode;

fn main(rt: HostRuntime) -> ExitCode {
    if !asks_for_rows(&rt) {
        return run_program(&rt);
    }
    match tell_rows(&rt) {
        Ok(()) => ExitCode::SUCCESS,
        Err(_) => ExitCode::FAILURE,
    }
}

/// Whether the first word is `rows`, which is no command of the program.
fn asks_for_rows(rt: &HostRuntime) -> bool {
    let Ok(mut words) = env::args(rt) else {
        return false;
    };
    match words.nth(1) {
        Some(word) => word.as_str() == "rows",
        None => false,
    }
}
