//! Tests of the crates of wire forms: what the proofs can't see, which is whether their definitions
//! say what the protocol says. Each row is from the protocol's text, with a rule's edge and the
//! value beside it. How packets are read is shown by the program `rtmfp`, whose file `stdin` has a
//! packet a line, and `stdout` what it says.
#![tactic(auto)]

#[cfg(test)]
mod chunks;
#[cfg(test)]
mod flow_options;
#[cfg(test)]
mod forms;
#[cfg(test)]
mod numbers;
#[cfg(test)]
mod pieces;
#[cfg(test)]
mod rows;
#[cfg(test)]
mod translating;
