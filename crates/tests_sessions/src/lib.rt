//! Tests of the profile, of identities and cookies, of sessions and their flows, of startup and of
//! introducers, through public items alone: values of other programs, and what the proofs can't see,
//! which is that calls succeed with much in memory, how chunks are spelled, and that the flows of a
//! session go over to another one. `scripts/baseline/vectors.py` prints the lines that stand here as
//! texts. The edges of the rules are rows of the crates' own modules `edges`.
#![tactic(auto)]

#[cfg(test)]
mod both_ends;
#[cfg(test)]
mod carrying;
#[cfg(test)]
mod forwarding;
#[cfg(test)]
mod keying;
#[cfg(test)]
mod lines;
#[cfg(test)]
mod profile;
#[cfg(test)]
mod receiving;
#[cfg(test)]
mod refusing;
#[cfg(test)]
mod sending;
#[cfg(test)]
mod session;
