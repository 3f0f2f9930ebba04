//! The limits that more than one crate knows (all own). A rule that names one says the number
//! itself.

/// The most candidate addresses of an attempt, and the most addresses of a row of an introducer.
pub const CANDIDATES: usize = 16;

/// The most bytes of a datagram that is sent.
pub const SENT: usize = 1200;

/// The most bytes of a datagram that is taken.
pub const TAKEN: usize = 2048;

/// The most bytes of a plain packet that is sent.
pub const PLAIN: usize = 1164;

/// The most bytes of a message.
pub const MESSAGE: u64 = 1_048_576;

/// The most bytes of the messages that wait in a flow.
pub const BACKLOG: u64 = 2_097_152;

/// The most fragments of the messages that wait in a flow.
pub const FRAGMENTS: u64 = 65_536;

/// The most flows of a session in either direction, over its life.
pub const FLOWS: usize = 256;

/// The most bytes of a flow's metadata.
pub const METADATA: usize = 64;

/// The highest priority of a flow.
pub const PRIORITY: u8 = 7;

/// The most peers that an end may know.
pub const PEERS: u32 = 1_048_576;

/// The most attempts and sessions that an end may have, closing ones counted.
pub const SESSIONS: u32 = 65_536;

/// The most bytes of a line of a script without its LF.
pub const LINE: usize = 2_097_664;

/// The most steps of a generated run.
pub const STEPS: u64 = 100_000;
