//! What was found of a chunk of a flow that nothing refuses, before it is taken.

/// Of a data or next chunk.
#[derive(Clone, Copy, Debug, PartialEq, Eq)]
pub struct JudgedData {
    /// The index of its flow; none where the chunk makes it.
    pub(crate) at: Option<usize>,
    /// How many messages it hands over at most.
    pub most: usize,
}
