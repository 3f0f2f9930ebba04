//! Chunks that are read and written again.

use crate::rows::{bytes, digits, first_word};
use rtmfp_chunks::{read_chunk, write_chunk};
use rtmfp_data_chunks::{DataCursor, write_data};
use rtmfp_forms::Outgoing;
use std::alloc::Global;
use std::test::Fail;

/// The one chunk of a packet, or `none`.
fn chunk_in(alloc: Global, out: &Outgoing, written: bool) -> Result<String, Fail> {
    match out.bytes().get(1..) {
        Some(chunk) if written => Ok(digits(alloc, chunk)?),
        _ => Ok(String::from_str(alloc, "none")?),
    }
}

/// Reads a payload as a chunk, and puts the chunk into a packet; whether both went well.
#[tactic(auto, using(rtmfp_chunks::proofs::WritingLaws::writable))]
fn write(kind: u8, payload: &[u8], out: &mut Outgoing) -> bool {
    match read_chunk(kind, payload) {
        Ok(view) => write_chunk(&view, out).is_ok(),
        Err(_) => false,
    }
}

/// A chunk of the startup or of a session, written again.
pub(crate) fn chunk_written(alloc: Global, given: &str) -> Result<String, Fail> {
    let (kind, payload) = first_word(given);
    let kind = bytes(alloc, kind)?.first().copied().ok_or("a type")?;
    let payload = bytes(alloc, payload)?;
    let mut out = Outgoing::new(0x03);
    let written = write(kind, payload.as_slice(), &mut out);
    chunk_in(alloc, &out, written)
}

/// Reads a payload as a chunk of a flow, and puts the chunk into a packet.
fn write_flow(kind: u8, payload: &[u8], out: &mut Outgoing) -> bool {
    match DataCursor::new().read(kind, payload) {
        Ok(view) => write_data(&view, out).is_ok(),
        Err(_) => false,
    }
}

/// A chunk of a flow, written again.
pub(crate) fn data_written(alloc: Global, given: &str) -> Result<String, Fail> {
    let (kind, payload) = first_word(given);
    let kind = bytes(alloc, kind)?.first().copied().ok_or("a type")?;
    let payload = bytes(alloc, payload)?;
    let mut out = Outgoing::new(0x01);
    let written = write_flow(kind, payload.as_slice(), &mut out);
    chunk_in(alloc, &out, written)
}
