//! The laws of logs and of histories: what holds of every log that an end can stand for, and of
//! every history of many ends. They stand over what each call does, and know nothing of the code.
#![tactic(auto)]

pub mod laws;
