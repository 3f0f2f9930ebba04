//! The outside of `rtmfp` as traits: what a source and a sink of bytes, a link, a clock, a random
//! source and a spawner mean, and how their faults are counted. Code above is generic over them, so
//! it is proved once for memory and for the real things alike.
#![tactic(auto)]

mod child_end;
mod entropy;
mod link;
mod memory_entropy;
mod memory_link;
mod memory_moments;
mod memory_sink;
mod memory_source;
mod memory_spawner;
mod moments;
mod plan;
mod sink;
mod source;
mod spawner;
mod stream_sink;
mod stream_source;
mod word_list;

pub use child_end::ChildEnd;
pub use entropy::{Drawn, Entropy};
pub use link::{Bound, Given, Got, Link, LinkCall, Sent};
pub use memory_entropy::{FaultyEntropy, MemoryEntropy};
pub use memory_link::{FaultyLink, MemoryLink};
pub use memory_moments::MemoryMoments;
pub use memory_sink::{FaultySink, MemorySink};
pub use memory_source::{FaultySource, MemorySource};
pub use memory_spawner::{FaultySpawner, MemorySpawner};
pub use moments::Moments;
pub use sink::{Sink, Wrote};
pub use source::{Source, Taken};
pub use spawner::{Begun, Ran, SpawnCall, Spawner, first_status};
pub use stream_sink::StreamSink;
pub use stream_source::StreamSource;
pub use word_list::WordList;
