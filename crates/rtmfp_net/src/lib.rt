//! The outside itself behind the traits of `rtmfp_host`: a UDP socket, the clock, a generator that
//! is keyed by the machine's random source, and child programs.
#![tactic(auto)]

mod generator;
mod places;
mod program_spawner;
mod running;
mod system_clock;
mod udp_link;

pub use generator::Generator;
pub use program_spawner::ProgramSpawner;
pub use system_clock::SystemClock;
pub use udp_link::UdpLink;
