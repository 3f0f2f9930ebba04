//! A chunk read from its type and its payload.
ghost use Rattle.std.specs.Prelude.{◌≡◌, Result};
ghost use Rattle.rtmfp_chunks.specs.Chunk.{Chunk};
ghost use Rattle.rtmfp_chunks.specs.Reading.{Reading, shown};
ghost use Rattle.rtmfp_chunks.specs.FieldReading.{chunk_reading};

use crate::rows::read_payload;
use crate::view::ChunkView;
use thiserror::Error;

/// Why a payload is no chunk.
#[derive(Clone, Copy, Debug, PartialEq, Eq, Error)]
pub enum ChunkFault {
    /// No chunk has this type.
    #[error("unknown chunk type {0}")]
    Unknown(u8),
    /// The field at this offset of the payload isn't there whole, or is a number that is too large.
    #[error("malformed at offset {0}")]
    Malformed(usize),
}

/// Reads a chunk of type `kind` from its payload (RFC 7016 section 2.3). What it gives are parts of
/// the payload.
pub fn read_chunk(kind: u8, payload: &[u8]) -> Result<ChunkView<'_>, ChunkFault>
    // The payload reads so, and in no other way.
    ensures reads { Reading kind payload.now (shown result) }
    ensures only { (other : Result Chunk ChunkFault) → Reading kind payload.now other →
        other ≡ shown result }

    // All of this as one function.
    ensures exact { shown result ≡ chunk_reading kind payload.now }
{
    read_kind(kind, payload)
}

fn read_kind(kind: u8, payload: &[u8]) -> Result<ChunkView<'_>, ChunkFault>
    ensures { Reading kind payload.now (shown result) }
{
    match read_payload(kind, payload) {
        Some(Ok(view)) => Ok(view),
        Some(Err(left)) => Err(ChunkFault::Malformed(payload.len() - left)),
        None => Err(ChunkFault::Unknown(kind)),
    }
}
