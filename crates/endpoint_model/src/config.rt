//! What an end is given.

/// The limits of an end, and whether it introduces others.
#[derive(Clone, Copy, Debug, PartialEq, Eq)]
pub struct Config {
    /// The most peers that are ever known, 1 to 1,048,576.
    pub max_peers: u32,
    /// The most attempts, searches and sessions at a time, 1 to 65,536.
    pub max_sessions: u32,
    /// Whether the end introduces others to each other.
    pub introduces: bool,
}

/// The random values of one call.
#[derive(Clone, Copy, Debug, PartialEq, Eq)]
pub struct Draws {
    /// The nonce of an attempt, a search or a session that begins in the call.
    pub nonce: [u8; 16],
    /// The tag of an attempt's or a search's hello.
    pub tag: [u8; 16],
    /// The token of an address test.
    pub token: [u8; 16],
    /// Where the search for a session ID that isn't in use begins.
    pub word: u32,
}
