//! What a line was.

/// What a line was (own).
#[derive(Clone, Copy, Debug, PartialEq, Eq)]
pub enum Said {
    /// It was done, and this text is to be written.
    Text,
    /// It is outside the grammar, or can't be done.
    Bad,
    /// It brings a datagram that nobody sent.
    Forged,
}
