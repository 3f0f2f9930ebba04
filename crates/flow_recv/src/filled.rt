//! How a run is kept.

use crate::bytes::HeldBytes;
use rtmfp_data_chunks::Part;

/// A run as it is kept. One fragment without bytes has nothing beside its place among the runs.
/// Any other run has a block of its own.
#[derive(Drop)]
pub enum Form {
    /// One fragment without bytes.
    Bare { part: Part, number: u64 },
    Filled(Box<FilledRun>),
}

/// What the block of a run holds: its numbers, whether it has its front and its rear, its bytes.
#[derive(Drop)]
pub struct FilledRun {
    pub first: u64,
    pub last: u64,
    pub front: bool,
    pub rear: bool,
    pub bytes: HeldBytes,
}
