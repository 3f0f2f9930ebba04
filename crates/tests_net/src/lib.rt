//! Tests of a node on a network, through public items alone: links, clocks, random sources and
//! spawners in memory and over the machine, the words of `serve` and `meet`, nodes in memory that
//! talk by datagrams of a program written apart, a meeting of three, and faults of what is outside.
#![tactic(auto)]

#[cfg(test)]
mod children;
#[cfg(test)]
mod machine;
#[cfg(test)]
mod meeting;
#[cfg(test)]
mod memory;
#[cfg(test)]
mod outside;
#[cfg(test)]
mod recorded;
#[cfg(test)]
mod serving;
#[cfg(test)]
mod sessions;
#[cfg(test)]
mod talks;
#[cfg(test)]
mod words;
