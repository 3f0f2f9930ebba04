//! Tests of the program's crates and of those of scripts and reports, through public items alone:
//! what the programs `rtmfp` and `rtmfp_called` don't show already. Their files `stdin` and `stdout`
//! are rows of packets and of scripts; whole scripts that are done are rows in the files of
//! `examples`.
#![tactic(auto)]

#[cfg(test)]
mod cli;
#[cfg(test)]
mod host;
#[cfg(test)]
mod introductions;
#[cfg(test)]
mod lines_of_logs;
#[cfg(test)]
mod report;
#[cfg(test)]
mod running;
#[cfg(test)]
mod script;
#[cfg(test)]
mod words;
