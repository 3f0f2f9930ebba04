//! Why words were not read.

/// Why the words of a command were not read.
#[derive(Clone, Copy, Debug, PartialEq, Eq)]
pub enum WordsFault {
    /// They aren't in the grammar.
    Faulty,
    /// There was no memory for what they say.
    Memory,
}
