//! A box as its parts: a pointer that owns what it leads to, and the handle that frees it.
#![tactic(auto)]

pub mod loose;
