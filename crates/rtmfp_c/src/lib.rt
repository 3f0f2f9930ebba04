//! One end of the protocol for programs in C and in other languages, as `include/rtmfp.h` has it.
//!
//! Each export takes the end out of its handle, makes one call of `endpoint`, and puts the end
//! back. What C holds is a word that owns the end's block, and a number that tells whether it does.
#![tactic(auto)]

mod calls;
mod flow_calls;
mod handle;
mod held;
mod making;
mod node;
mod outbox;
mod receiving;
mod rows;
mod searches;
mod succeeding;
mod taking;
